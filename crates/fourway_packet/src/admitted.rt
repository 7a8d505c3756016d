ghost use Rattle.std.specs.Prelude.{◌≡◌, ◌≢◌, true, Some, IfOk, IfErr};
ghost use Rattle.fourway_packet.specs.Command.{command_of, judged, takes};

use crate::{Ack, Command, Params};

/// The command of this number, if it may be carried out, or the first reason against it.
pub(crate) fn admitted(
    cmd: u8,
    addr: u16,
    params: &Params,
    is_active: bool,
    is_armed: bool,
) -> Result<Command, Ack>
    ensures judged { result ≡ judged (command_of cmd) addr params.now is_active is_armed }
    ensures takes { IfOk result (λ command. takes command addr params.now ≡ true) }
    ensures flash { IfErr result (λ ack. ack ≢ Ack.FlashFailed) }
{
    match Command::of(cmd) {
        Some(command) => judged(command, addr, params, is_active, is_armed),
        None => Err(Ack::UnknownCommand),
    }
}

fn judged(
    command: Command,
    addr: u16,
    params: &Params,
    is_active: bool,
    is_armed: bool,
) -> Result<Command, Ack>
    ensures judged { result ≡ judged (Some command) addr params.now is_active is_armed }
    ensures takes { IfOk result (λ c. takes c addr params.now ≡ true) }
    ensures flash { IfErr result (λ ack. ack ≢ Ack.FlashFailed) }
{
    if command.has_channel() && params.first() != 0 {
        return Err(Ack::WrongChannel);
    }
    if command.is_locked(is_active, is_armed) {
        return Err(Ack::NotAllowed);
    }
    if !command.takes(addr, params) {
        return Err(Ack::WrongParameters);
    }
    if command.is_reserved(addr, params) {
        return Err(Ack::NotAllowed);
    }
    Ok(command)
}
