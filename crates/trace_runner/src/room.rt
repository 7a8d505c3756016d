use esc_base::NoMemory;
use fourway_packet::Packets;
use std::alloc::Global;
use std::marker::Model;

/// All the memory that a run takes: the serial bytes that wait.
#[derive(Drop)]
pub struct Room {
    pub(crate) packets: Packets,
}

impl Model for Room {
    ghost use Rattle.std.specs.Prelude.{◌≡◌, []};
    ghost use Rattle.fourway_packet.specs.Queue.{Queue};

    ghost Value = { Queue };

    ghost view = { λ r. r.packets };

    ghost invariant = { λ r. r.packets.waiting ≡ [] };
}

impl Room {
    /// Room for 512 serial bytes.
    pub fn new(alloc: Global) -> Result<Room, NoMemory> {
        Ok(Room {
            packets: Packets::new(alloc)?,
        })
    }
}
