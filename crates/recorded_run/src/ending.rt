//! What stands after the lines of a run's events.
ghost use Rattle.std.specs.Prelude.{◌≡◌, ◌++◌, ℕ, List, length, map};
ghost use Rattle.std.specs.List.{flat_map};
ghost use Rattle.module_image.specs.SiteLine.{site_lines};
ghost use Rattle.poke_base.specs.Host.{Prints};
ghost use Rattle.recorded_run.specs.Tally.{AreTotals, dropped_line, tracer_line, tracer_lines};
ghost use Rattle.recorded_run.specs.Trace.{sites_text};
ghost use Rattle.script_runner.specs.World.{StandsFor};
ghost use Rattle.switching.specs.Laws.{held_text};
ghost use Rattle.switching.specs.State.{State};
ghost use Rattle.tracer_ops.specs.Meaning.{IsTotal};

use crate::tracing::Dropped;
use poke_base::{Host, Line, WriteFail, put_dec, put_text};
use script_runner::World;
use tracer_ops::Tracer;

/// Prints a line for each site, with what it now holds, then one for each drop, and one for each tracer that is left.
pub fn print_end<H: Host>(
    world: &World,
    dropped: &[Dropped],
    tracers: &Vec<Box<dyn Tracer>>,
    host: &mut H,
) -> Result<(), WriteFail>
    ensures { (s : State) → StandsFor world.now s → (totals : List ℕ) × AreTotals (map (λ b. meaning b) tracers.now.items) totals × Prints (H.outside host.old) (H.outside host.new) (sites_text world.now.image s ++ flat_map dropped_line dropped.now ++ tracer_lines 0 totals) result }
{
    print_sites(world, host)?;
    print_dropped(dropped, host)?;
    print_tracers(tracers, host)
}

/// Prints a line for each site, with what it now holds.
fn print_sites<H: Host>(world: &World, host: &mut H) -> Result<(), WriteFail>
    ensures { (s : State) → StandsFor world.now s → Prints (H.outside host.old) (H.outside host.new) (site_lines world.now.image.base (held_text world.now.image s) world.now.image.sites) result }
{
    for site in 0..world.image().sites().len() as u32 {
        let mut line = Line::new();
        world.site_line(site, &mut line);
        host.print(&line)?;
    }
    Ok(())
}

/// Prints a line for each drop.
fn print_dropped<H: Host>(dropped: &[Dropped], host: &mut H) -> Result<(), WriteFail>
    ensures { Prints (H.outside host.old) (H.outside host.new) (flat_map dropped_line dropped.now) result }
{
    for drop in dropped {
        host.print(&dropped_line(drop))?;
    }
    Ok(())
}

/// Prints a line for each tracer.
fn print_tracers<H: Host>(tracers: &Vec<Box<dyn Tracer>>, host: &mut H) -> Result<(), WriteFail>
    ensures { (totals : List ℕ) × AreTotals (map (λ b. meaning b) tracers.now.items) totals × Prints (H.outside host.old) (H.outside host.new) (tracer_lines 0 totals) result }
{
    for place in 0..tracers.len() {
        host.print(&tracer_line(place as u64, total_of(&tracers[place])))?;
    }
    Ok(())
}

/// What a tracer has counted.
fn total_of(tracer: &Box<dyn Tracer>) -> u64
    ensures { IsTotal (meaning tracer.now) result }
{
    tracer.total()
}

/// `dropped T total N`, or `dropped T none` where no tracer was at the place.
#[tactic(auto, using(poke_base::proofs::Numbers::line_room))]
fn dropped_line(dropped: &Dropped) -> Line
    ensures { result.items ≡ dropped_line dropped.now }
{
    let mut line = Line::new();
    put_text(&mut line, b"dropped ");
    put_dec(&mut line, u64::from(dropped.place));
    match dropped.total {
        None => put_text(&mut line, b" none"),
        Some(total) => {
            put_text(&mut line, b" total ");
            put_dec(&mut line, total);
        }
    }
    put_text(&mut line, b"\n");
    line
}

/// `tracer I total N`.
#[tactic(auto, using(poke_base::proofs::Numbers::line_room))]
fn tracer_line(place: u64, total: u64) -> Line
    ensures { result.items ≡ tracer_line place total }
{
    let mut line = Line::new();
    put_text(&mut line, b"tracer ");
    put_dec(&mut line, place);
    put_text(&mut line, b" total ");
    put_dec(&mut line, total);
    put_text(&mut line, b"\n");
    line
}
