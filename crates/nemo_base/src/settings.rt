ghost use Rattle.std.specs.Prelude.{◌≡◌};
ghost use Rattle.nemo_base.specs.Settings.{default_settings};

use crate::limits;
use std::marker::Model;

/// The settings of a run, which are in their ranges. Slots from 0 are reserved, the following ones transient.
#[derive(Clone, Copy)]
pub struct Settings {
    /// How many slots are reserved, at least 1; with the transient ones at most 64.
    pub reserved: u32,
    /// How many slots are transient.
    pub transient: u32,
    /// How many losses of a task end the run, 1 to 1,000.
    pub loss_bound: u32,
    /// The bytes of a piece, 1 to 1,048,576.
    pub piece: u32,
    /// Of how many rows one is looked at to decide the cuts of a skewed vertex, 1 to 1,000.
    pub sample: u32,
    /// The most bytes of decoded blocks that a store keeps, up to 1,073,741,824.
    pub decoded: u64,
}

impl Model for Settings {
    ghost use Rattle.nemo_base.specs.Settings.{AreInRange, SettingsForm};

    ghost Value = { SettingsForm };

    ghost view = { λ s. record { reserved = s.reserved; transient = s.transient; loss_bound = s.loss_bound; piece = s.piece; sample = s.sample; decoded = s.decoded } };

    ghost invariant = { λ s. AreInRange (record { reserved = s.reserved; transient = s.transient; loss_bound = s.loss_bound; piece = s.piece; sample = s.sample; decoded = s.decoded }) };

    ghost inverse = { λ s. record { reserved = s.reserved; transient = s.transient; loss_bound = s.loss_bound; piece = s.piece; sample = s.sample; decoded = s.decoded } };
}

impl Default for Settings {
    ghost is_default = { λ s. s ≡ default_settings };

    /// The settings of a run of which nothing is said.
    fn default() -> Settings {
        Settings {
            reserved: limits::DEFAULT_RESERVED,
            transient: limits::DEFAULT_TRANSIENT,
            loss_bound: limits::LOSS_BOUND.usual,
            piece: limits::PIECE.usual,
            sample: limits::SAMPLE.usual,
            decoded: u64::from(limits::DECODED.usual),
        }
    }
}
