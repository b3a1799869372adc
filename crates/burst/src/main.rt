// One burst of readings, filed as a recorder sends them, put right and listed: the change in velocity along the vehicle's axis
// (event 1, channel 2), in tenths of a kilometre per hour.
#![tactic(auto)]

ghost use Rattle.std.specs.Iterator.{IsFinite};

use keys::condition::NotAvailable;
use keys::refusal::number_of;
use keys::sample::Sample;
use keys::value::{NOT_AVAILABLE, Reading};
use leaf::array::Array;
use leaf::data_block::Slot;
use ranks::dimension::LEN;
use std::io;

// Time in ms, reading and status, in the order in which they came; one status says that the reading is not available.
const BURST: [(i16, i32, u8); 12] = [
    (0, 0, 0),
    (20, -31, 0),
    (10, -12, 0),
    (40, -118, 0),
    (30, -74, 0),
    (60, -203, 0),
    (50, 0, NOT_AVAILABLE),
    (70, -236, 0),
    (100, -271, 0),
    (90, -268, 0),
    (80, -257, 0),
    (30, -75, 0),
];

fn sample(time: i16) -> Sample {
    Sample {
        event: 1,
        time,
        channel: 2,
    }
}

fn entry(time: i16, value: i32, status: u8) -> Slot<Sample, Reading> {
    Slot {
        key: sample(time),
        val: Reading { value, status },
    }
}

// Files the whole burst; a reading that came twice is refused.
fn file_all(
    rt: &impl Print,
    array: &mut Array,
    slots: &mut [Slot<Sample, Reading>; LEN],
) -> io::Result<()> {
    for (time, value, status) in BURST {
        let new = entry(time, value, status);
        let answer = array.insert(slots, new, false);
        println!(rt; "file {time} {}: {}", new.val, number_of(&answer))?;
    }
    Ok(())
}

// Puts the reading that was read again in place of the old one, and strikes those that are not available.
fn put_right(
    rt: &impl Print,
    array: &mut Array,
    slots: &mut [Slot<Sample, Reading>; LEN],
) -> io::Result<()> {
    let again = entry(30, -75, 0);
    let answer = array.insert(slots, again, true);
    println!(rt; "replace 30 {}: {}", again.val, number_of(&answer))?;
    for (time, _, _) in BURST {
        let answer = array.remove_if(slots, &sample(time), &mut NotAvailable);
        if answer.is_ok() {
            println!(rt; "strike {time}: {}", number_of(&answer))?;
        }
    }
    Ok(())
}

// The entries of the slots that a walk gives.
fn print_entries<W: Iterator<Item = u8>>(
    rt: &impl Print,
    heading: &str,
    slots: &[Slot<Sample, Reading>],
    walk: W,
) -> io::Result<()>
    requires can { W.can_next walk }
    requires finite { IsFinite (W.remaining walk) }
{
    println!(rt; "{heading}")?;
    for pos in walk {
        if let Some(slot) = slots.get(usize::from(pos)) {
            println!(rt; "  {} {}", slot.key.time, slot.val)?;
        }
    }
    Ok(())
}

fn main(rt: HostRuntime) -> io::Result<()> {
    let mut array = Array::new();
    let mut slots = [entry(0, 0, 0); LEN];
    file_all(&rt, &mut array, &mut slots)?;
    put_right(&rt, &mut array, &mut slots)?;
    print_entries(&rt, "forward", &slots, array.iter())?;
    print_entries(&rt, "backward", &slots, array.iter().rev())?;
    println!(rt;
        "rank word {:016x}, bitmap {:015b}",
        array.metadata, array.bitmap
    )
}
