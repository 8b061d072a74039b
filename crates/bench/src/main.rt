// Times the stack and the memory of the machine: `bench measure` prints nanoseconds for each of ten million turns.
#![tactic(auto)]

ghost use Rattle.std.specs.Prelude.{◌^◌, ◌<◌, length};

use cells::content::Word;
use cells::memory::Memory;
use heap::{BlockRecord, Cell};
use stack::Stack;
use std::time::Instant;
use std::{env, io};

const TURNS: u32 = 10_000_000;

// Two pushes and two pops a turn.
fn push_and_pop(room: &mut [u64], turns: u32) -> u64 {
    let mut entries = Stack::new(room);
    let mut sum = 1u64;
    // The number of a turn is what it pushes.
    for i in 0..turns {
        let _ = entries.push(i as u64);
        let _ = entries.push(sum);
        let last = entries.pop().unwrap_or(0);
        let first = entries.pop().unwrap_or(0);
        sum = last.wrapping_mul(3) ^ first;
    }
    sum
}

// A store and a load a turn, at a word of an array.
fn store_and_load(cells: &mut [Cell], records: &mut [BlockRecord], turns: u32) -> u32
    requires cells { length cells.old < 2 ^ 28 }
    requires records { length records.old < 2 ^ 31 }
{
    let mut memory = Memory::over(cells, records);
    let Ok(array) = memory.new_array(4, 100) else {
        return 0;
    };
    let mut sum = 1u32;
    // The number of a turn says where it stores, and what.
    for i in 0..turns {
        if let Ok(word) = memory.add_index(array, i % 100) {
            let _ = memory.store::<Word>(word, sum ^ i);
            sum = memory.load::<Word>(word).unwrap_or(0).wrapping_mul(3);
        }
    }
    sum
}

fn measure(rt: &HostRuntime) -> io::Result<()> {
    let mut room = [0u64; 64];
    let start = Instant::now(rt)?;
    let sum = push_and_pop(&mut room, TURNS);
    let nanos = start.elapsed(rt)?.as_nanos() / TURNS as u128;
    println!(rt; "two pushes and two pops: {nanos} ns ({sum})")?;
    let mut cells = [Cell::default(); 64];
    let mut records = [BlockRecord::default(); 4];
    let start = Instant::now(rt)?;
    let sum = store_and_load(&mut cells, &mut records, TURNS);
    let nanos = start.elapsed(rt)?.as_nanos() / TURNS as u128;
    println!(rt; "a word stored and loaded: {nanos} ns ({sum})")
}

fn main(rt: HostRuntime) -> io::Result<()> {
    let mut arguments = env::args(&rt)?;
    if arguments
        .nth(1)
        .is_some_and(|word| word.as_str() == "measure")
    {
        return measure(&rt);
    }
    println!(rt; "usage: bench measure")
}
