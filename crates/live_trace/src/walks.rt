//! The lines of the walks of a live run.
ghost use Rattle.std.specs.Prelude.{◌≡◌, ◌≤◌, ◌+◌, ℕ, ◌++◌, length, map};
ghost use Rattle.std.specs.List.{AllZip};
ghost use Rattle.cpu_core.specs.Lines.{mark_line};
ghost use Rattle.live_engine.specs.Walks.{IsWalk, SayAll, Says, after_turn};
ghost use Rattle.live_text.specs.declared.plan.LivePlan.{LivePlan};
ghost use Rattle.poke_base.specs.Host.{Prints};
ghost use Rattle.x64_subset.specs.Proc.{start};
ghost use Rattle.x64_subset.specs.Whole.{insn_of};
ghost use Rattle.live_trace.specs.WalkText.{turn_text, version_line, walk_text, walks_text};

use cpu_core::{put_mark, put_pass_words};
use insn_forms::Form;
use int3_handler::emulate;
use live_engine::{Turn, Walk};
use module_image::Image;
use poke_base::{Host, Line, WriteFail, put_dec, put_text};
use x64_subset::{Insn, Life, Mark, Proc, execute};

/// Prints the lines of the walks of the processors that start at these entries, by number. What a processor did at a site is
/// `C ADDR FORM v N g G`: N is the version of the site, which is how many chunks have been done, and G the last
/// acknowledgement. What an instruction showed has the lines that it has in a trace.
pub fn print_walks<H: Host>(
    image: &Image,
    entries: &[u64],
    walks: &[Walk],
    host: &mut H,
) -> Result<(), WriteFail>
    requires few { length entries.now ≤ 16 }
    requires walks { (plan : LivePlan) × ((turns : ℕ) × AllZip (λ entry walk. IsWalk image.now plan entry turns walk.items) entries.now walks.now) }
    ensures { Prints (H.outside host.old) (H.outside host.new) (walks_text image.now 0 entries.now (map (λ walk. walk.items) walks.now)) result }
{
    for number in 0..entries.len() {
        print_walk(image, number as u8, entries[number], &walks[number], host)?;
    }
    Ok(())
}

/// Prints the lines of the walk of a processor, by its number, that starts at an entry.
fn print_walk<H: Host>(
    image: &Image,
    cpu: u8,
    entry: u64,
    walk: &[Turn],
    host: &mut H,
) -> Result<(), WriteFail>
    requires known { cpu ≤ 15 }
    requires says { (plan : LivePlan) × SayAll image.now plan (start entry) walk.now }
    ensures { Prints (H.outside host.old) (H.outside host.new) (walk_text image.now cpu (start entry) walk.now) result }
{
    let mut proc = Proc::start(entry);
    for turn in walk {
        print_turn(image, cpu, &mut proc, turn, host)?;
    }
    Ok(())
}

/// Does what a member of a walk says that the processor did, and prints it.
fn print_turn<H: Host>(
    image: &Image,
    cpu: u8,
    proc: &mut Proc,
    turn: &Turn,
    host: &mut H,
) -> Result<(), WriteFail>
    requires known { cpu ≤ 15 }
    requires says { (plan : LivePlan) × Says image.now plan proc.old turn.now }
    requires depth { proc.old.depth ≤ 64 }
    ensures proc { proc.new ≡ after_turn image.now proc.old turn.now }
    ensures depth { proc.new.depth ≤ 64 }
    ensures prints { Prints (H.outside host.old) (H.outside host.new) (turn_text cpu proc.old.ip turn.now proc.new.life) result }
{
    let at = proc.ip;
    match turn {
        Turn::Ran(mark) => {
            if let Some((insn, len)) = image.insn_at(at) {
                execute(&insn, len, proc);
            }
            print_mark(cpu, *mark, proc.life, host)
        }
        Turn::Pass {
            form,
            version,
            ack,
            mark,
            ..
        } => {
            emulate(form, at, proc);
            host.print(&version_line(cpu, at, form, *version, *ack))?;
            print_mark(cpu, *mark, proc.life, host)
        }
        Turn::Trapped | Turn::Still => Ok(()),
    }
}

/// Prints what an instruction showed of a processor, by its number, that then is in this state, if it showed anything.
fn print_mark<H: Host>(cpu: u8, mark: Mark, life: Life, host: &mut H) -> Result<(), WriteFail>
    requires { cpu ≤ 15 }
    ensures { Prints (H.outside host.old) (H.outside host.new) (mark_line cpu mark life) result }
{
    if let Mark::None = mark {
        return Ok(());
    }
    let mut line = Line::new();
    put_mark(&mut line, cpu, mark, life);
    host.print(&line)
}

/// The line of a form that a processor did at the site at an address, with its version, and the last acknowledgement.
#[tactic(auto, using(poke_base::proofs::Numbers::line_room))]
fn version_line(cpu: u8, at: u64, form: &Form, version: u32, ack: u64) -> Line
    requires { cpu ≤ 15 }
    ensures { result.items ≡ version_line cpu at form.now version ack }
{
    let mut line = Line::new();
    put_pass_words(&mut line, cpu, at, &Insn::from(*form));
    put_text(&mut line, b" v ");
    put_dec(&mut line, u64::from(version));
    put_text(&mut line, b" g ");
    put_dec(&mut line, ack);
    put_text(&mut line, b"\n");
    line
}

#[cfg(test)]
mod tests {
    use super::{print_mark, version_line};
    use insn_forms::Form;
    use poke_base::MemoryHost;
    use std::test::Fail;
    use x64_subset::{Life, Mark};

    #[test]
    fn forms_have_lines_with_their_version(rt: HostRuntime) {
        let last = u64::MAX;
        let rows: [(u8, u64, Form, u32, u64, &[u8]); 5] = [
            (0, 0x40_1000, Form::Nop5, 0, 0, b"0 401000 nop v 0 g 0\n"),
            (
                9,
                0x40_1000,
                Form::Jmp32(0x40_100f),
                1,
                3,
                b"9 401000 jmp 40100f v 1 g 3\n",
            ),
            (10, 0, Form::Jmp8(2), 2, 4, b"10 0 jmp 2 v 2 g 4\n"),
            (15, 0x40_1000, Form::Ret, 3, 9, b"15 401000 ret v 3 g 9\n"),
            (
                15,
                last,
                Form::Call(last),
                u32::MAX,
                last,
                b"15 ffffffffffffffff call ffffffffffffffff v 4294967295 g 18446744073709551615\n",
            ),
        ];
        for (cpu, at, form, version, ack, spelling) in rows {
            assert!(rt; cpu <= 15);
            let line = version_line(cpu, at, &form, version, ack);
            assert_eq!(rt; line.as_slice(), spelling);
        }
    }

    #[test]
    fn marks_that_show_nothing_have_no_line(rt: HostRuntime) -> Result<(), Fail> {
        let mut host = MemoryHost::new(rt.alloc());
        let out = Mark::Out {
            port: 0x10,
            value: 0x01,
        };
        assert_eq!(rt; print_mark(0, Mark::None, Life::Running, &mut host), Ok(()));
        assert_eq!(rt; print_mark(0, out, Life::Running, &mut host), Ok(()));
        assert_eq!(rt; print_mark(0, Mark::Ended, Life::Done, &mut host), Ok(()));
        assert_eq!(rt; host.printed(), b"0 out 10 01\n0 done\n".as_slice());
        Ok(())
    }
}
