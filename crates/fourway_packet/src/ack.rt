ghost use Rattle.std.specs.Prelude.{◌≡◌};
ghost use Rattle.fourway_packet.specs.declared.ack.Ack.TheVariants.{FlashFailed};
ghost use Rattle.fourway_packet.specs.Ack.{ack_number};

use esc_base::Failed;
use settings_block::FlashFault;

/// Why a packet is refused, or what failed. A reply has it as a number; 0 says that all went well.
#[derive(Clone, Copy, Drop)]
pub enum Ack {
    /// 2: there is no such command.
    UnknownCommand,
    /// 3: the packet's CRC is wrong.
    WrongCrc,
    /// 4: the flash holds other bytes than those to verify.
    Differs,
    /// 6: the flash failed.
    FlashFailed,
    /// 8: there is no such channel.
    WrongChannel,
    /// 9: address or parameters aren't what the command takes.
    WrongParameters,
    /// 15: the command isn't allowed now, or not there.
    NotAllowed,
}

impl Ack {
    /// Its number in a reply.
    pub fn number(self) -> u8
        ensures { result ≡ ack_number self }
    {
        match self {
            Ack::UnknownCommand => 0x02,
            Ack::WrongCrc => 0x03,
            Ack::Differs => 0x04,
            Ack::FlashFailed => 0x06,
            Ack::WrongChannel => 0x08,
            Ack::WrongParameters => 0x09,
            Ack::NotAllowed => 0x0F,
        }
    }
}

impl From<Failed> for Ack {
    ghost from_gives = { λ _ ack. ack ≡ FlashFailed };

    fn from(_failed: Failed) -> Ack {
        Ack::FlashFailed
    }
}

impl From<FlashFault> for Ack {
    ghost from_gives = { λ _ ack. ack ≡ FlashFailed };

    fn from(_fault: FlashFault) -> Ack {
        Ack::FlashFailed
    }
}
