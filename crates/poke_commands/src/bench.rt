//! The command `bench`: the run of a generated module, counted.
ghost use Rattle.std.specs.Prelude.{◌≡◌, ◌≤◌, ◌<◌, ℕ, List, Some, length, slice_get};
ghost use Rattle.std.specs.List.{flat_map};
ghost use Rattle.poke_base.specs.Host.{Prints};
ghost use Rattle.poke_commands.specs.BenchText.{bench_line, bench_text, count_line, worded};
ghost use Rattle.poke_commands.specs.Command.{Bench as BenchRow};
ghost use Rattle.poke_commands.specs.Runs.{Does};

use bench_run::Counts;
use poke_base::{Host, Line, WriteFail, put_dec, put_text};
use poke_faults::Fault;
use std::alloc::Global;

/// Prints the counts of the run of the module with n blocks, 10 to 1,000, by a fixed script and the words of a seed. No
/// file is read or made, and the run isn't shown.
///
/// # Errors
/// `Memory`: nothing was printed. `Write`: a prefix of the text was printed.
pub fn bench<H: Host>(alloc: Global, blocks: u32, seed: u64, host: &mut H) -> Result<(), Fault>
    requires few { 10 ≤ blocks }
    requires many { blocks ≤ 1000 }
    ensures { Does (BenchRow blocks seed) (H.outside host.old) (H.outside host.new) result }
{
    let counts = bench_run::bench(alloc, blocks, seed)?;
    print_bench(blocks, seed, &counts, host)?;
    Ok(())
}

/// Prints the numbers that were given, and the counts of the run, a line each.
fn print_bench<H: Host>(
    blocks: u32,
    seed: u64,
    counts: &Counts,
    host: &mut H,
) -> Result<(), WriteFail>
    ensures { Prints (H.outside host.old) (H.outside host.new) (bench_text blocks seed counts.now) result }
{
    host.print(&bench_line(blocks, seed))?;
    print_counts(counts, host)
}

/// Prints the counts of a run, a line each.
fn print_counts<H: Host>(counts: &Counts, host: &mut H) -> Result<(), WriteFail>
    ensures { Prints (H.outside host.old) (H.outside host.new) (flat_map count_line (worded counts.now)) result }
{
    for place in 0..7 {
        host.print(&count_line(counts, place))?;
    }
    Ok(())
}

/// The numbers that were given.
#[tactic(auto, using(poke_base::proofs::Numbers::line_room))]
fn bench_line(blocks: u32, seed: u64) -> Line
    ensures { result.items ≡ bench_line blocks seed }
{
    let mut line = Line::new();
    put_text(&mut line, b"bench ");
    put_dec(&mut line, u64::from(blocks));
    put_text(&mut line, b" ");
    put_dec(&mut line, seed);
    put_text(&mut line, b"\n");
    line
}

/// The line of one of the counts.
#[tactic(auto, using(poke_base::proofs::Numbers::line_room))]
fn count_line(counts: &Counts, place: u8) -> Line
    requires { place < 7 }
    ensures { (count : List ℕ × ℕ) → slice_get (worded counts.now) place ≡ Some count → result.items ≡ count_line count }
{
    let (word, count) = worded(counts, place);
    let mut line = Line::new();
    put_text(&mut line, word);
    put_text(&mut line, b" ");
    put_dec(&mut line, count);
    put_text(&mut line, b"\n");
    line
}

/// One of the counts, with its word.
fn worded(counts: &Counts, place: u8) -> (&'static [u8], u64)
    requires { place < 7 }
    ensures count { slice_get (worded counts.now) place ≡ Some (result.0.now, result.1) }
    ensures short { length result.0.now ≤ 8 }
{
    match place {
        0 => (b"updates", counts.updates),
        1 => (b"writes", counts.writes),
        2 => (b"requests", counts.requests),
        3 => (b"takes", counts.takes),
        4 => (b"passes", counts.passes),
        5 => (b"traps", counts.traps),
        _ => (b"events", counts.events),
    }
}
