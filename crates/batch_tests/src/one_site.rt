//! An update of one site, from its opening to its end.
ghost use Rattle.std.specs.Prelude.{◌≡◌, length, None};

use crate::frame::{Bytes, acknowledge, clashes, finish, request, write};
use insn_forms::{Change, Changes, Form};
use poke_batch::{Batch, Clash, Due};
use std::alloc::Global;
use std::process::Abort;

/// Opens the update of a no-operation to a jump over a text that holds these bytes there.
fn open(rt: &impl Abort, alloc: Global, batch: &mut Batch, bytes: &[u8]) -> Result<(), Clash>
    requires idle { batch.old.update ≡ None }
    requires one { batch.old.sites ≡ 1 }
    requires five { length bytes.now ≡ 5 }
    ensures { batch.new.cpus ≡ batch.old.cpus }
{
    let mut changes = Changes::with_room(alloc, 1).expect(rt, "memory");
    changes.push(Change {
        at: 0x40_1000,
        old: Form::Nop5,
        new: Form::Jmp32(0x40_2000),
    });
    let text = Bytes {
        from: 0x40_1000,
        bytes,
    };
    batch.fill(&changes, &text)
}

#[test]
fn pokes_a_jump(rt: HostRuntime) {
    let mut batch = Batch::new(rt.alloc(), 1, 2).expect(&rt, "memory");
    assert_eq!(rt; batch.due(), Due::Idle);
    assert_eq!(rt; batch.find(0x40_1000), None);
    assert_eq!(rt;
        open(&rt, rt.alloc(), &mut batch, &[0x0f, 0x1f, 0x44, 0x00, 0x00]),
        Ok(())
    );

    write(&rt, &mut batch, 0x40_1000, 0xcc);
    assert_eq!(rt; batch.find(0x40_1000), Some((Form::Jmp32(0x40_2000), 5)));
    assert_eq!(rt; batch.find(0x40_1001), None);
    request(&rt, &mut batch);
    acknowledge(&rt, &mut batch, 1);
    assert!(rt; batch.has_acked(1));
    acknowledge(&rt, &mut batch, 0);
    assert!(rt; !batch.has_acked(1));

    write(&rt, &mut batch, 0x40_1001, 0xfb);
    write(&rt, &mut batch, 0x40_1002, 0x0f);
    write(&rt, &mut batch, 0x40_1003, 0x00);
    write(&rt, &mut batch, 0x40_1004, 0x00);
    request(&rt, &mut batch);
    acknowledge(&rt, &mut batch, 0);
    acknowledge(&rt, &mut batch, 1);

    write(&rt, &mut batch, 0x40_1000, 0xe9);
    request(&rt, &mut batch);
    acknowledge(&rt, &mut batch, 0);
    acknowledge(&rt, &mut batch, 1);

    finish(&rt, &mut batch);
}

#[test]
fn refuses_a_site_that_holds_other_bytes(rt: HostRuntime) {
    let mut batch = Batch::new(rt.alloc(), 1, 2).expect(&rt, "memory");
    let found = [0xe9, 0xfb, 0x0f, 0x00, 0x00];
    let opened = open(&rt, rt.alloc(), &mut batch, &found);
    clashes(
        &rt,
        opened,
        0x40_1000,
        &found,
        &[0x0f, 0x1f, 0x44, 0x00, 0x00],
    );
    assert_eq!(rt; batch.due(), Due::Idle);
}
