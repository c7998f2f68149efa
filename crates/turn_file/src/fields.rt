// The fields of a record, little-endian, from its bytes.
ghost use Rattle.std.specs.Prelude.{◌≡◌};
ghost use Rattle.turn_file.specs.Fields.{byte_at, shape_at, arrival_at};
ghost use Rattle.arrival.specs.declared.Action.TheVariants.{Enqueue};

use arrival::{Action, Arrival, Shape};

// The shape in an `OP` record.
#[tactic(auto, unfolding(crate::specs::Fields::shape_at))]
pub fn shape_of(bytes: &[u8; 9]) -> Shape
    ensures { result ≡ shape_at bytes.now 0 }
{
    let [_, _, workers, n0, n1, b0, b1, w0, w1] = *bytes;
    Shape {
        workers: workers as u64,
        nodes: u16::from_le_bytes([n0, n1]) as u64,
        buckets: u16::from_le_bytes([b0, b1]) as u64,
        width: u16::from_le_bytes([w0, w1]) as u64,
    }
}

// The put start in a `PU` record.
#[tactic(auto, unfolding(crate::specs::Fields::arrival_at))]
pub fn enqueue_of(bytes: &[u8; 12]) -> Action
    ensures { result ≡ Enqueue (byte_at bytes.now 2) (arrival_at bytes.now 0) }
{
    let [_, _, worker, t0, t1, t2, t3, p0, p1, order, d0, d1] = *bytes;
    let arrival = Arrival {
        time: u32::from_le_bytes([t0, t1, t2, t3]),
        path: u16::from_le_bytes([p0, p1]) as u32,
        order: order as u32,
        distance: u16::from_le_bytes([d0, d1]) as u32,
    };
    Action::Enqueue(worker as u64, arrival)
}

// The worker in a record that has no other field.
pub fn worker_of(bytes: &[u8; 3]) -> u64
    ensures { result ≡ byte_at bytes.now 2 }
{
    bytes[2] as u64
}
