ghost use Rattle.std.specs.Prelude.{◌≡◌, ◌≤◌, ◌<◌};
ghost use Rattle.fourway_packet.specs.Command.{command_of, has_channel, is_locked, takes, is_reserved, session_after, content_of, count_of};

use crate::Params;
use crate::flash::settings_in;

/// What a packet asks for.
#[derive(Clone, Copy, Drop)]
pub enum Command {
    /// 0x30: whether the controller is there.
    Alive,
    /// 0x31: the version of the protocol.
    ProtocolVersion,
    /// 0x32: the name of the interface.
    Name,
    /// 0x33: the version of the interface.
    InterfaceVersion,
    /// 0x34: ends the session.
    Exit,
    /// 0x35: ends the session and resets a channel, of which there is one, 0.
    Reset,
    /// 0x37: begins a session with a channel.
    InitFlash,
    /// 0x39: erases a page.
    PageErase,
    /// 0x3A: reads from an address on.
    Read,
    /// 0x3B: programs the parameters from an address on.
    Write,
    /// 0x3D: reads from the settings' page, by an address within it.
    ReadEeprom,
    /// 0x3E: saves a block of settings.
    WriteEeprom,
    /// 0x3F: chooses the mode of the interface, of which there is one, 4.
    SetMode,
    /// 0x40: compares the parameters with the flash.
    Verify,
}

/// The bytes of the flash.
const FLASH: usize = 0x8000;

/// The pages of the flash.
const PAGES: u8 = 32;

/// The bytes of a page.
const PAGE: usize = 0x400;

/// The first pages hold the controller's own start code: they are neither erased nor written.
const RESERVED_PAGES: u8 = 4;

/// The first address after those pages.
const RESERVED: u16 = 0x1000;

/// The one mode of the interface.
const MODE: u8 = 4;

/// How many bytes are asked for: 0 stands for 256.
pub(crate) fn count_of(n: u8) -> usize
    ensures count { result ≡ count_of n }
    ensures most { result ≤ 256 }
    ensures some { 0 < result }
{
    if n == 0 { 256 } else { n as usize }
}

impl Command {
    /// The command of this number.
    pub(crate) fn of(cmd: u8) -> Option<Command>
        ensures { result ≡ command_of cmd }
    {
        match cmd {
            0x30 => Some(Command::Alive),
            0x31 => Some(Command::ProtocolVersion),
            0x32 => Some(Command::Name),
            0x33 => Some(Command::InterfaceVersion),
            0x34 => Some(Command::Exit),
            0x35 => Some(Command::Reset),
            0x37 => Some(Command::InitFlash),
            0x39 => Some(Command::PageErase),
            0x3A => Some(Command::Read),
            0x3B => Some(Command::Write),
            0x3D => Some(Command::ReadEeprom),
            0x3E => Some(Command::WriteEeprom),
            0x3F => Some(Command::SetMode),
            0x40 => Some(Command::Verify),
            _ => None,
        }
    }

    /// Whether its first parameter is a channel.
    pub(crate) fn has_channel(self) -> bool
        ensures { result ≡ has_channel self }
    {
        matches!(self, Command::Reset | Command::InitFlash)
    }

    /// Whether it is locked: no session begins while armed, and flash commands need a session, while not armed.
    pub(crate) fn is_locked(self, is_active: bool, is_armed: bool) -> bool
        ensures { result ≡ is_locked self is_active is_armed }
    {
        match self {
            Command::InitFlash => is_armed,
            Command::PageErase
            | Command::Read
            | Command::Write
            | Command::ReadEeprom
            | Command::WriteEeprom
            | Command::Verify => is_armed || !is_active,
            _ => false,
        }
    }

    /// Whether it takes this address and these parameters.
    pub(crate) fn takes(self, addr: u16, params: &Params) -> bool
        ensures { result ≡ takes self addr params.now }
    {
        let at = addr as usize;
        let first = params.first();
        let len = params.bytes().len();
        match self {
            Command::PageErase => first < PAGES,
            Command::Read => at + count_of(first) <= FLASH,
            Command::Write | Command::Verify => at + len <= FLASH,
            Command::ReadEeprom => at + count_of(first) <= PAGE,
            Command::WriteEeprom => addr == 0 && settings_in(params.bytes()).is_some(),
            Command::SetMode => first == MODE,
            _ => true,
        }
    }

    /// Whether it would change the first pages.
    pub(crate) fn is_reserved(self, addr: u16, params: &Params) -> bool
        ensures { result ≡ is_reserved self addr params.now }
    {
        match self {
            Command::PageErase => params.first() < RESERVED_PAGES,
            Command::Write => addr < RESERVED,
            _ => false,
        }
    }

    /// Whether the session is active after it.
    pub(crate) fn session_after(self, is_active: bool) -> bool
        ensures { result ≡ session_after self is_active }
    {
        match self {
            Command::Exit | Command::Reset => false,
            Command::InitFlash => true,
            _ => is_active,
        }
    }

    /// What its reply has as parameters, where these are always the same.
    pub(crate) fn content(self) -> Params
        ensures { result ≡ content_of self }
    {
        match self {
            Command::ProtocolVersion => Params::new(&[107]),
            Command::Name => Params::new(b"m4wFCIntf"),
            Command::InterfaceVersion => Params::new(&[200, 4]),
            Command::InitFlash => Params::new(&[0x06, 0x1F, 0x00, 0x04]),
            _ => Params::nothing(),
        }
    }
}
