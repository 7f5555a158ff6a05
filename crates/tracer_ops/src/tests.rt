//! Lists of tracers.
ghost use Rattle.std.specs.Prelude.{[]};
ghost use Rattle.tracer_ops.specs.Meaning.{Meaning};
ghost use Rattle.tracer_ops.specs.declared.tracer.TracerRule.TheVariants.{Untold};

use crate::{Count, LastSites, NoSuch, Tracer, drop_at, feed};
use std::test::Fail;

/// Counts each hit twice, and does not say so.
#[derive(Drop)]
struct Twice {
    total: u64,
}

impl Tracer for Twice {
    ghost meaning = { λ twice. record { rule = Untold; numbers = [] } };

    fn hit(&mut self, _cpu: u8, _site: u64) {
        self.total = self.total.saturating_add(2);
    }

    fn total(&self) -> u64 {
        self.total
    }
}

#[test]
fn lists_are_fed_and_close_up(rt: HostRuntime) -> Result<(), Fail> {
    let alloc = rt.alloc();
    let mut tracers: Vec<Box<dyn Tracer>> = Vec::new(alloc);
    feed(&mut tracers, 0, 0x40_1000);
    assert_eq!(rt; drop_at(&mut tracers, 0), Err(NoSuch { len: 0 }));

    // The tracer at a place is there for 300 hits less its place.
    for place in 0..300u64 {
        match place % 3 {
            0 => tracers.push(Box::new(alloc, Count::new())?)?,
            1 => tracers.push(Box::new(alloc, LastSites::new())?)?,
            _ => tracers.push(Box::new(alloc, Twice { total: 0 })?)?,
        }
        feed(&mut tracers, 15, 0x40_1000 + place);
    }
    for place in 255..300 {
        let hits = 300 - place;
        let total = if place % 3 == 2 { 2 * hits } else { hits };
        assert_eq!(rt; drop_at(&mut tracers, 255), Ok(total), "at {place}");
    }
    assert_eq!(rt; drop_at(&mut tracers, 255), Err(NoSuch { len: 255 }));

    for (place, answer) in [
        (0, Ok(300)),
        (1, Ok(2 * 298)),
        (1, Ok(297)),
        (251, Ok(2 * 46)),
        (251, Err(NoSuch { len: 251 })),
        (250, Ok(47)),
    ] {
        assert_eq!(rt; drop_at(&mut tracers, place), answer, "at {place}");
    }
    let text = format!(in alloc; "{}", NoSuch { len: 250 })?;
    assert_eq!(rt; text.as_str(), "250 tracers are left");
    Ok(())
}
