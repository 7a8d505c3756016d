ghost use Rattle.std.specs.Prelude.{⊤, ◌≡◌, ◌≢◌, ◌||◌, ◌^◌, ℕ, [], ◌∷◌, codes, false};
ghost use Rattle.esc_base.specs.declared.kind.Kind.{Kind};
ghost use Rattle.esc_base.specs.Numbers.{kind_number};
ghost use Rattle.timer_regs.specs.Kinds.{has_kind};

use bitflags::{Flag, Flags, bitflag_items};
use esc_base::Kind;

/// A set of interrupt kinds: bit k stands for the kind with number k.
#[derive(Clone, Copy, Debug, PartialEq, Eq, Drop)]
pub struct KindSet(u8);

bitflag_items! {
    impl KindSet: u8 {
        const MAIN = 1;
        const UART = 2;
        const TICK = 4;
        const CAP = 8;
        const CMP = 16;
        const PWM = 32;
        const COMM = 64;
    }
}

impl Flags for KindSet {
    type Bits = u8;

    ghost exact = { ⊤ };

    ghost table = { (codes "MAIN", 1) ∷ (codes "UART", 2) ∷ (codes "TICK", 4) ∷ (codes "CAP", 8) ∷ (codes "CMP", 16) ∷
        (codes "PWM", 32) ∷ (codes "COMM", 64) ∷ [] };

    ghost set_of = { λ s. s.0 };

    fn flags<'a>() -> &'a [Flag<KindSet>] {
        KindSet::FLAGS
    }

    fn bits(&self) -> u8 {
        self.0
    }

    fn from_bits_retain(bits: u8) -> KindSet {
        KindSet(bits)
    }
}

impl KindSet {
    /// No kind.
    pub fn none() -> KindSet
        ensures { (k : Kind) → has_kind result k ≡ false }
    {
        KindSet(0)
    }

    /// The set of this kind alone.
    pub fn only(kind: Kind) -> KindSet
        ensures { result.0 ≡ 2 ^ kind_number kind }
    {
        match kind {
            Kind::Main => KindSet::MAIN,
            Kind::Uart => KindSet::UART,
            Kind::Tick => KindSet::TICK,
            Kind::Cap => KindSet::CAP,
            Kind::Cmp => KindSet::CMP,
            Kind::Pwm => KindSet::PWM,
            Kind::Comm => KindSet::COMM,
        }
    }

    /// Whether the kind is in the set.
    pub fn has(self, kind: Kind) -> bool
        ensures { result ≡ has_kind self kind }
    {
        self.0 & KindSet::only(kind).0 != 0
    }

    /// The set with this kind in it, where `is_in` says so, and with the kinds that it had.
    pub fn with(self, kind: Kind, is_in: bool) -> KindSet
        ensures added { has_kind result kind ≡ (is_in || has_kind self kind) }
        ensures others { (k : Kind) → kind_number k ≢ kind_number kind → has_kind result k ≡ has_kind self k }
    {
        let mut set = self;
        if is_in {
            set.insert(KindSet::only(kind));
        }
        set
    }
}
