//! Writes the size of each transfer of a recorded session that is whole.
//!
//! A run is `walk_run((), Counting { size: 0 }, reader, output, report)`.

ghost use Rattle.std.specs.Prelude.{◌≡◌, true, false};
ghost use Rattle.example_library.specs.Counting.{line_if};

use arrayvec::ArrayVec;
use itoa::Buffer;
use link_run::Writers;
use link_run_over_transfers::{Consumer, EventView, Manner};
use link_wire::{IoFault, OutDevice};

/// A tool over transfers.
#[derive(Drop)]
pub struct Counting {
    /// How many bytes of the latest transfer's data have come.
    pub size: u64,
}

impl Consumer for Counting {
    ghost use Rattle.link_run_over_transfers.specs.Saying.{kept_after, telling_of};
    ghost use Rattle.example_library.specs.Counting.{sizes};

    type Options = ();

    ghost telling = { λ options. telling_of sizes (record { goes_on = true; all_heads = false }) };

    ghost knows = { λ options tool events. tool.size ≡ kept_after sizes 0 events };

    fn manner(options: &()) -> Manner {
        Manner {
            goes_on: true,
            all_heads: false,
        }
    }

    fn event<W: OutDevice, E: OutDevice>(
        &mut self,
        options: &(),
        event: EventView<'_>,
        writers: &mut Writers<W, E>,
    ) -> Result<(), IoFault> {
        let whole = match event {
            EventView::Head(head) => {
                if head.begins() {
                    self.size = 0;
                }
                head.closes()
            }
            EventView::Data { bytes, whole } => {
                self.size = self.size.saturating_add(bytes.len() as u64);
                whole
            }
            EventView::Contact(_) => false,
            // This comes only to a tool that is told of every head.
            EventView::Inner { .. } => false,
            EventView::LeftOpen => false,
        };
        writers.write_output(&line_if(whole, self.size))
    }

    fn is_good(&self, options: &()) -> bool {
        true
    }
}

/// The line of a transfer of this size, if it is whole.
fn line_if(whole: bool, size: u64) -> ArrayVec<u8, 21>
    ensures { result.items ≡ line_if whole size }
{
    let mut line = ArrayVec::new();
    if whole {
        line.try_extend_from_slice(Buffer::new().format(size).as_bytes())
            .unwrap();
        line.push(b'\n');
    }
    line
}
