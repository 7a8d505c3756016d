ghost use Rattle.std.specs.Prelude.{◌≡◌, ◌≤◌, true, false, Err, IsErrOf, IfErr, IfOk};
ghost use Rattle.esc_base.specs.Outside.{Rose};
ghost use Rattle.fourway_packet.specs.Command.{takes, calls_flash};
ghost use Rattle.fourway_packet.specs.Answer.{cmd_of, addr_of, params_of, admitted_of, ComesOf, said_params, said_ack, IsCarriedOut, IsAnswered, session_behind, reaches_flash};

use crate::admitted::admitted;
use crate::command::count_of;
use crate::flash::{read, save_block, verify};
use crate::{Ack, Command, Packet, Params, Reply};
use esc_base::FlashDev;

/// The address of the settings' page.
const SETTINGS: u16 = 0x7C00;

/// What a configurator and the controller know of each other.
#[derive(Clone, Copy, Debug, PartialEq, Eq, Drop)]
pub struct Session {
    /// Whether flash commands are allowed. It isn't at the start.
    pub active: bool,
}

/// The answer to a packet. Its acknowledgement is the first of these that applies:
///
/// - 3: the CRC is wrong;
/// - 2: there is no such command;
/// - 8: the command has a channel, and its first parameter isn't 0;
/// - 15: it would begin a session while armed, or use the flash while armed or without an active session;
/// - 9: address or parameters aren't what it takes;
/// - 15: it would erase or write one of the first four pages;
/// - 6: the flash failed, whose count of faults then rose in this call;
/// - 4: the flash differs from the bytes to verify;
/// - 0: it was carried out.
///
/// The first six change nothing. After 6 the bytes that the failed call was to change may be any, and after a failed
/// save the whole settings' page; all other bytes and the session are as before.
pub fn answer<D: FlashDev>(p: &Packet, s: &mut Session, armed: bool, dev: &mut D) -> Reply
    ensures cmd { result.cmd ≡ cmd_of p.now }
    ensures addr { result.addr ≡ addr_of p.now }
    ensures answered { IsAnswered p.now s.old.active armed (D.told dev.old).bytes result (D.told dev.new).bytes }
    ensures session { s.new.active ≡ session_behind (admitted_of p.now s.old.active armed) s.old.active }
    ensures untouched { reaches_flash (admitted_of p.now s.old.active armed) ≡ false → dev.new ≡ dev.old }
    ensures no_fewer { (D.told dev.old).faults ≤ (D.told dev.new).faults }
    ensures failed { result.ack ≡ 6 → Rose (D.told dev.old).faults (D.told dev.new).faults }
{
    match p {
        Packet::Whole { cmd, addr, params } => {
            let outcome = carried(*cmd, *addr, params, s, armed, dev);
            reply_to(*cmd, *addr, outcome)
        }
        Packet::BadCrc { cmd, addr } => reply_to(*cmd, *addr, Err(Ack::WrongCrc)),
    }
}

/// The reply that says what came of a packet.
fn reply_to(cmd: u8, addr: u16, outcome: Result<Params, Ack>) -> Reply
    ensures cmd { result.cmd ≡ cmd }
    ensures addr { result.addr ≡ addr }
    ensures params { result.params ≡ said_params outcome }
    ensures ack { result.ack ≡ said_ack outcome }
{
    match outcome {
        Ok(params) => Reply {
            cmd,
            addr,
            params,
            ack: 0,
        },
        Err(ack) => Reply {
            cmd,
            addr,
            params: Params::nothing(),
            ack: ack.number(),
        },
    }
}

/// What comes of a packet whose CRC is right.
fn carried<D: FlashDev>(
    cmd: u8,
    addr: u16,
    params: &Params,
    s: &mut Session,
    armed: bool,
    dev: &mut D,
) -> Result<Params, Ack>
    ensures comes { ComesOf (admitted_of (Packet.Whole cmd addr params.now) s.old.active armed) (Packet.Whole cmd addr params.now)
        (D.told dev.old).bytes result (D.told dev.new).bytes }
    ensures session { s.new.active ≡ session_behind (admitted_of (Packet.Whole cmd addr params.now) s.old.active armed) s.old.active }
    ensures untouched { reaches_flash (admitted_of (Packet.Whole cmd addr params.now) s.old.active armed) ≡ false → dev.new ≡ dev.old }
    ensures no_fewer { (D.told dev.old).faults ≤ (D.told dev.new).faults }
    ensures failed { IsErrOf result Ack.FlashFailed → Rose (D.told dev.old).faults (D.told dev.new).faults }
{
    let command = admitted(cmd, addr, params, s.active, armed)?;
    s.active = command.session_after(s.active);
    carry_out(command, addr, params, dev)
}

/// Carries out a command.
fn carry_out<D: FlashDev>(
    command: Command,
    addr: u16,
    params: &Params,
    dev: &mut D,
) -> Result<Params, Ack>
    requires { takes command addr params.now ≡ true }
    ensures carried { IsCarriedOut command addr params.now (D.told dev.old).bytes result (D.told dev.new).bytes }
    ensures untouched { calls_flash command ≡ false → dev.new ≡ dev.old }
    ensures no_fewer { (D.told dev.old).faults ≤ (D.told dev.new).faults }
    ensures failed { IsErrOf result Ack.FlashFailed → Rose (D.told dev.old).faults (D.told dev.new).faults }
{
    match command {
        Command::PageErase => {
            dev.erase(params.first())?;
            Ok(Params::nothing())
        }
        Command::Read => read(addr, count_of(params.first()), dev),
        Command::Write => {
            dev.program(addr, params.bytes())?;
            Ok(Params::nothing())
        }
        Command::ReadEeprom => read(SETTINGS + addr, count_of(params.first()), dev),
        Command::WriteEeprom => save_block(params.bytes(), dev),
        Command::Verify => verify(addr, params.bytes(), dev),
        _ => Ok(command.content()),
    }
}
