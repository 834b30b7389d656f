//! The TOC byte: a configuration, the channels, and how the frames of the packet are counted.
ghost use Rattle.std.specs.Prelude.{◌<◌};

/// Which part of the codec made a packet's frames (RFC 6716, 3.1).
#[derive(Clone, Copy, Debug, PartialEq, Eq)]
pub enum Mode {
    /// Linear prediction alone, for speech at low rates.
    Silk,
    /// Linear prediction below 8 kHz, and the transform above.
    Hybrid,
    /// The transform alone, for music and short delays.
    Celt,
}

/// The audio bandwidth of a packet's frames (RFC 6716, 2.1.3).
#[derive(Clone, Copy, Debug, PartialEq, Eq)]
pub enum Band {
    /// Narrowband: up to 4 kHz.
    Narrow,
    /// Mediumband: up to 6 kHz.
    Medium,
    /// Wideband: up to 8 kHz.
    Wide,
    /// Super-wideband: up to 12 kHz.
    SuperWide,
    /// Fullband: up to 20 kHz.
    Full,
}

/// What the TOC byte of a packet says (RFC 6716, 3.1).
#[derive(Clone, Copy, Debug, PartialEq, Eq)]
pub struct Toc {
    /// The configuration, 0 to 31: mode, bandwidth and length of a frame.
    pub config: u8,
    /// Whether the packet has two channels.
    pub stereo: bool,
    /// The frame count code, 0 to 3: how the packet tells how many frames it has.
    pub code: u8,
    ghost known: { config < 32 },
    ghost two_bits: { code < 4 },
}

impl Toc {
    ghost use Rattle.std.specs.Prelude.{◌≡◌, ◌<◌};
    ghost use Rattle.opus_toc.specs.Toc.{config_of, stereo_of, code_of, toc_byte};
    ghost use Rattle.opus_toc.specs.Configuration.{samples_of, mode_of, bandwidth_of};

    /// The TOC byte with these parts.
    pub fn new(config: u8, stereo: bool, code: u8) -> Toc
        requires config_in { config < 32 }
        requires code_in { code < 4 }
        ensures config { result.config ≡ config }
        ensures stereo { result.stereo ≡ stereo }
        ensures code { result.code ≡ code }
    {
        Toc {
            config,
            stereo,
            code,
        }
    }

    /// What `byte`, the first of a packet, says.
    pub fn of_byte(byte: u8) -> Toc
        ensures config { result.config ≡ config_of byte }
        ensures stereo { result.stereo ≡ stereo_of byte }
        ensures code { result.code ≡ code_of byte }
    {
        Toc {
            config: byte / 8,
            stereo: byte / 4 % 2 == 1,
            code: byte % 4,
        }
    }

    /// The byte that says this.
    pub fn to_byte(self) -> u8
        ensures { result ≡ toc_byte self.config self.stereo self.code }
    {
        let channels = if self.stereo { 1 } else { 0 };
        8 * self.config + 4 * channels + self.code
    }

    /// Samples at 48 kHz of one frame.
    pub fn samples(self) -> u32
        ensures { result ≡ samples_of self.config }
    {
        let index = usize::from(self.config);
        match self.mode() {
            Mode::Silk => [480, 960, 1920, 2880][index % 4],
            Mode::Hybrid => [480, 960][index % 2],
            Mode::Celt => [120, 240, 480, 960][index % 4],
        }
    }

    /// Which part of the codec made the frames.
    #[tactic(auto, using(crate::proofs::Table::ranges))]
    pub fn mode(self) -> Mode
        ensures { result ≡ mode_of self.config }
    {
        match self.config {
            0..=11 => Mode::Silk,
            12..=15 => Mode::Hybrid,
            _ => Mode::Celt,
        }
    }

    /// The audio bandwidth of the frames.
    #[tactic(auto, using(crate::proofs::Table::ranges))]
    pub fn bandwidth(self) -> Band
        ensures { result ≡ bandwidth_of self.config }
    {
        match self.config {
            0..=3 => Band::Narrow,
            4..=7 => Band::Medium,
            8..=11 => Band::Wide,
            12..=13 => Band::SuperWide,
            14..=15 => Band::Full,
            16..=19 => Band::Narrow,
            20..=23 => Band::Wide,
            24..=27 => Band::SuperWide,
            _ => Band::Full,
        }
    }
}
