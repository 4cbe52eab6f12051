// Times: a PCR counts ticks of 27 MHz, a PTS or DTS ticks of 90 kHz.
#![tactic(auto)]

ghost use Rattle.std.specs.Prelude.{◌≡◌};
ghost use Rattle.ticks.specs.Ticks.{clock, pcr_base, pcr_extension, time_stamp};

// So many ticks of 27 MHz.
#[derive(Clone, Copy)]
pub struct Ticks27(pub u64);

// So many ticks of 90 kHz.
#[derive(Clone, Copy)]
pub struct Ticks90(pub u64);

impl Ticks27 {
    // The PCR of these six bytes.
    pub fn pcr(a: u8, b: u8, c: u8, d: u8, e: u8, f: u8) -> Ticks27
        ensures { result ≡ clock (pcr_base a b c d e) (pcr_extension e f) }
    {
        let base = a as u64 * 33554432
            + b as u64 * 131072
            + c as u64 * 512
            + d as u64 * 2
            + (e / 128) as u64;
        let extension = (e % 2) as u64 * 256 + f as u64;
        Ticks27(base * 300 + extension)
    }
}

impl Ticks90 {
    // The PTS or DTS of these five bytes.
    pub fn time_stamp(a: u8, b: u8, c: u8, d: u8, e: u8) -> Ticks90
        ensures { result ≡ time_stamp a b c d e }
    {
        let high = (a / 2 % 8) as u64 * 1073741824 + b as u64 * 4194304;
        Ticks90(high + (c / 2) as u64 * 32768 + d as u64 * 128 + (e / 2) as u64)
    }
}
