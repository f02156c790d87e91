// A script's line read, and a trace's record written, on lent bytes.
#![tactic(auto)]

ghost use Rattle.std.specs.Prelude.{◌≡◌, ◌+◌, ◌*◌, ◌≤◌, ◌==◌, length, position};
ghost use Rattle.script.specs.Line.{shift, after, misled, number, one_number, two_numbers, line_of};
ghost use Rattle.script.specs.Text.{digits, spaced, row, header, bytes_of, rec_of, Wrote};

// A command of the script.
#[derive(Clone, Copy)]
pub enum Command {
    Begin(u8),
    Oracle(u64, u64),
    Restart(u64),
    Deliver(u64, u64),
    Submit(u64, u64),
}

// A record of the trace: E server epoch; B and V server epoch counter value; X line refusal.
#[derive(Clone, Copy)]
pub enum Note {
    Enters(u64, u64),
    Takes(u64, u64, u64, u64),
    Delivers(u64, u64, u64, u64),
    Refuses(u64, u64),
}

// The value so far with one digit more.
fn shift(v: u64, b: u8) -> Option<u64>
    ensures { result ≡ shift v b }
{
    if !b.is_ascii_digit() {
        return None;
    }
    v.checked_mul(10)?.checked_add(u64::from(b - b'0'))
}

fn read_digits(part: &[u8]) -> Option<u64>
    ensures { result ≡ after (Some 0) part.now }
{
    let mut v = 0;
    for b in part {
        v = shift(v, *b)?;
    }
    Some(v)
}

// No digit at all, or a zero before others.
fn misled(part: &[u8]) -> bool
    ensures { result ≡ misled part.now }
{
    matches!(part, [] | [b'0', _, ..])
}

pub fn number(part: &[u8]) -> Option<u64>
    ensures { result ≡ number part.now }
{
    if misled(part) {
        return None;
    }
    read_digits(part)
}

// N with three to seven servers, or R.
fn one_number(kind: u8, v: u64) -> Option<Command>
    ensures { result ≡ one_number kind (Some v) }
{
    match (kind, v) {
        (b'N', 3..=7) => Some(Command::Begin(v as u8)),
        (b'R', _) => Some(Command::Restart(v)),
        _ => None,
    }
}

// O, D or S.
fn two_numbers(kind: u8, v: u64, w: u64) -> Option<Command>
    ensures { result ≡ two_numbers kind (Some v) (Some w) }
{
    match kind {
        b'O' => Some(Command::Oracle(v, w)),
        b'D' => Some(Command::Deliver(v, w)),
        b'S' => Some(Command::Submit(v, w)),
        _ => None,
    }
}

// The place of the first space.
fn space(line: &[u8]) -> Option<usize>
    ensures { result ≡ position (λ b. b == 32) line.now }
{
    line.iter().position(|b| *b == b' ')
}

// The command that a line stands for.
pub fn parse(line: &[u8]) -> Option<Command>
    ensures { result ≡ line_of line.now }
{
    let [kind, b' ', rest @ ..] = line else {
        return None;
    };
    match space(rest) {
        None => one_number(*kind, number(rest)?),
        Some(i) => {
            let x = number(&rest[..i])?;
            let y = number(&rest[i + 1..])?;
            two_numbers(*kind, x, y)
        }
    }
}

// v in decimal, without leading zeros.
fn write_number(out: &mut [u8], at: usize, v: u64) -> usize
    requires { at + 20 ≤ length out.old }
    ensures { Wrote out.old at (digits v) result out.new × (result ≤ at + 20) }
{
    let d = b'0' + (v % 10) as u8;
    if v < 10 {
        out[at] = d;
        return at + 1;
    }
    let e = write_number(out, at, v / 10);
    out[e] = d;
    e + 1
}

// A space and a number.
fn write_field(out: &mut [u8], at: usize, v: u64) -> usize
    requires { at + 21 ≤ length out.old }
    ensures { Wrote out.old at (spaced v) result out.new × (result ≤ at + 21) }
{
    out[at] = b' ';
    write_number(out, at + 1, v)
}

// A letter, each number after a space, and the newline.
fn write_row(out: &mut [u8], at: usize, letter: u8, numbers: &[u64]) -> usize
    requires { at + 2 + 21 * length numbers.now ≤ length out.old }
    ensures { Wrote out.old at (row letter numbers.now) result out.new × (result ≤ at + 2 + 21 * length numbers.now) }
{
    out[at] = letter;
    let mut end = at + 1;
    for v in numbers {
        end = write_field(out, end, *v);
    }
    out[end] = b'\n';
    end + 1
}

// The header of a trace of n servers.
pub fn write_header(out: &mut [u8], at: usize, n: u8) -> usize
    requires { at + 96 ≤ length out.old }
    ensures { Wrote out.old at (header n) result out.new × (result ≤ at + 96) }
{
    out[at] = b'T';
    out[at + 1] = b'R';
    write_row(out, at + 2, b'C', &[1, u64::from(n)])
}

// One record with its newline.
pub fn write_record(out: &mut [u8], at: usize, note: Note) -> usize
    requires { at + 96 ≤ length out.old }
    ensures { Wrote out.old at (bytes_of (rec_of note)) result out.new × (result ≤ at + 96) }
{
    match note {
        Note::Enters(s, e) => write_row(out, at, b'E', &[s, e]),
        Note::Takes(s, e, c, v) => write_row(out, at, b'B', &[s, e, c, v]),
        Note::Delivers(s, e, c, v) => write_row(out, at, b'V', &[s, e, c, v]),
        Note::Refuses(line, k) => write_row(out, at, b'X', &[line, k]),
    }
}
