// A tour for a new user: a homing program from its text to its end, then one that is refused and one that stops, each with what is
// promised at that point.
#![tactic(auto)]

use std::io;
use visit::visit;

mod visit;

// Word 0 of the drive is a position, word 1 tells whether the axis is at home. `main` puts the axis at 3 and calls `step`, which moves it
// by one and gives the new position, until that is 0.
const HOMING: &str = "C0C0FFEE 0017 0000 0000 0002
00 01 001C        # main: 1 variable, 28 bytes of code
1000 1003 B70001 57  # position = 3
B80001 3600       # 8   moved = step()
1500 1000 A3FFF7  # 13  if moved > 0, go to 8
1001 1001 B70001 B0  # homed = 1, and give what it was
00 00 0014        # step: no variables, 20 bytes of code
1000 1000 B70000 1001 64 B70001 57  # position = position - 1
1000 B70000 B0    # give the position
0002 0001 0000 0002 0001  # two natives: get is 0 in the host's table, set is 1
0300 0100 77 0300 0100 77  # kinds: both functions give a word
0400 0200 77 77 0500 0200 77 77 77  # get takes a word, set takes two
";

// Adds with one value on the stack.
const WRONG: &str = "C0C0FFEE 0017 0000 0000 0001 00 00 0004 1006 60 B0 0000 0300 0100 77";

// Divides 6 by 0.
const DIVIDING: &str = "C0C0FFEE 0017 0000 0000 0001 00 00 0006 1006 1000 6C B0 0000 0300 0100 77";

fn main(rt: HostRuntime) -> io::Result<()> {
    println!(rt; "A homing program, from its text to its end.")?;
    visit(&rt, HOMING, &[6, 9, 1000])?;
    println!(rt; "\nA program that adds with one value on the stack.")?;
    visit(&rt, WRONG, &[])?;
    println!(rt; "\nA program that divides 6 by 0.")?;
    visit(&rt, DIVIDING, &[1000, 1])
}
