// Runs the records of data/cases.bin and compares each answer with the oracle's, which stands beside it.
// Writes a line for each case that differs, and a closing count.
#![tactic(auto)]

ghost use Rattle.std.specs.Prelude.{◌≤◌, IfOk};
ghost use Rattle.record.specs.Record.{Counts};

use answer_record::write::LONGEST_ANSWER;
use reading::read_full;
use record::answer::answer;
use std::io::Read;
use std::{fs, io};

// A length in two bytes, low byte first; none where the list ends.
fn read_length(list: &mut impl Read) -> Option<usize> {
    let mut two = [0; 2];
    if read_full(list, &mut two) < 2 {
        return None;
    }
    Some(usize::from(u16::from_le_bytes(two)))
}

// The next bytes of the list, at the start of buf; none where they don't fit.
fn read_part(list: &mut impl Read, len: usize, buf: &mut [u8]) -> usize
    ensures { Counts result buf.new }
{
    if buf.len() < len {
        return 0;
    }
    read_full(list, &mut buf[0..len])
}

fn same_answer(input: &[u8], wanted: &[u8]) -> bool {
    let mut out = [0; LONGEST_ANSWER];
    let written = answer(input, &mut out);
    &out[..written.len] == wanted
}

// Whether the answer to the next record, of len bytes, is the oracle's.
fn next_same(list: &mut impl Read, len: usize) -> bool {
    let mut input = [0; 18639];
    let mut wanted = [0; LONGEST_ANSWER];
    let n = read_part(list, len, &mut input);
    // An answer that isn't there is empty.
    let wanted_len = read_length(list).unwrap_or(0);
    let m = read_part(list, wanted_len, &mut wanted);
    same_answer(&input[..n], &wanted[..m])
}

// Names case k unless its answer is the oracle's; 1 for each such.
fn report(rt: &impl Print, k: u64, same: bool) -> io::Result<u64>
    ensures { IfOk result (λ n. n ≤ 1) }
{
    if same {
        return Ok(0);
    }
    println!(rt; "{k} differs")?;
    Ok(1)
}

// Runs the list's cases, and says how many there are and how many differ.
fn replay(rt: &impl Print, list: &mut impl Read) -> io::Result<()> {
    let mut cases = 0;
    let mut different = 0;
    for k in 0..65536u64 {
        let Some(len) = read_length(list) else {
            break;
        };
        different += report(rt, k, next_same(list, len))?;
        cases = k + 1;
    }
    println!(rt; "{cases} cases, {different} different")
}

fn main(rt: HostRuntime) -> io::Result<()> {
    match fs::open(&rt, "cases.bin") {
        Ok(mut list) => replay(&rt, &mut list),
        // A list that isn't there has no case.
        Err(_) => replay(&rt, &mut io::empty()),
    }
}
