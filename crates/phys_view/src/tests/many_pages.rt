//! A view of which as many pages are written to as may be.

ghost use Rattle.std.specs.Prelude.{⊤};

use super::*;
use block_pool::Pool;
use elf_core::{Segment, Segments};
use std::alloc::Global;
use std::process::Abort;
use std::test::Fail;

/// How many pages may be written to.
const LIMIT: u64 = 262_144;

/// Writes to one page more than may be written to.
struct Writes<'a, A: Abort> {
    rt: &'a A,
    alloc: Global,
    segments: Segments<'a>,
}

impl<'a, A: Abort> Reader for Writes<'a, A> {
    type Answer = ();

    ghost gives = { λ _ _. ⊤ };

    fn read<L: Ledger>(self, steps: &mut Steps<L>) {
        let Writes {
            rt,
            alloc,
            segments,
        } = self;
        let mut view: View<'_, L> = View::new(alloc, segments);
        let mut pool = Pool::new(alloc);
        for page in 0..LIMIT {
            assert_eq!(rt;
                view.write(&mut pool, page * 4096, &[1]),
                Ok(()),
                "page {page}"
            );
        }
        let one_more = LIMIT * 4096;
        assert_eq!(rt;
            view.write(&mut pool, one_more, &[1]),
            Err(WriteFault::OverlayFull)
        );
        assert_eq!(rt; view.byte(one_more, steps), Some(0));
        let unknown = one_more + 1;
        assert_eq!(rt;
            view.write(&mut pool, unknown, &[1]),
            Err(WriteFault::Unknown(unknown))
        );
        // A page that was written to isn't one more.
        assert_eq!(rt; view.write(&mut pool, 0, &[2]), Ok(()));
        assert_eq!(rt; view.byte(0, steps), Some(2));
        assert_eq!(rt; (view.overlaid(), pool.live()), (LIMIT, LIMIT));
    }
}

#[test]
fn one_page_more_is_refused(rt: HostRuntime) -> Result<(), Fail> {
    // Of each page the first byte is known.
    let mut segments = Segments::new(rt.alloc());
    for page in 0..=LIMIT {
        segments.push(Segment {
            phys: page * 4096,
            bytes: &[0],
        })?;
    }
    segments.index(rt.alloc())?;
    answer_of(Writes {
        rt: &rt,
        alloc: rt.alloc(),
        segments,
    });
    Ok(())
}
