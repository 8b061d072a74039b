// Numbers in tens.
ghost use Rattle.std.specs.Prelude.{◌≡◌, ◌<◌, ◌≤◌, drop};
ghost use Rattle.host.specs.Lines.{tens, in_tens};

// A word in tens has at most ten digits and a sign.
pub const ROOM: usize = 11;

// Writes a number in tens so that it ends where `out` ends, and answers its bytes. By hand, as the text is a part of what hosts are
// proved to write, and `Display` promises nothing of what it writes.
#[tactic(auto, using(crate::proofs::Spelling::sign_before))]
pub fn write_number(out: &mut [u8; ROOM], value: i32) -> &[u8]
    ensures { result.now ≡ in_tens value }
{
    let mut start = write_digits(out, value.unsigned_abs());
    if value < 0 {
        start -= 1;
        out[start] = b'-';
    }
    &out[start..]
}

// Writes the digits of a number so that they end where `out` ends, and answers where they begin.
#[tactic(auto, using(crate::proofs::Spelling::spelling))]
fn write_digits(out: &mut [u8; ROOM], n: u32) -> usize
    ensures below { 0 < result }
    ensures within { result ≤ 11 }
    ensures text { drop result out.new ≡ tens 10 n }
{
    let mut left = n;
    let mut start = ROOM;
    // The last digit comes first, and how many there are the number alone says: so the loop goes by what is left of it.
    while left >= 10 {
        start -= 1;
        out[start] = b'0' + (left % 10) as u8;
        left /= 10;
    }
    start -= 1;
    out[start] = b'0' + left as u8;
    start
}
