ghost use Rattle.std.specs.Prelude.{◌≡◌};
ghost use Rattle.hwp_geom.specs.Limits.{number, cpu_limit_of, frame_limit_of, page_limit_of, translation_limit_of};

/// The version of a script, which its first line names, and of its report. It says how large a machine may be.
#[derive(Clone, Copy, PartialEq, Eq)]
pub enum Version {
    One,
    Two,
}

impl Version {
    /// The digit that names the version.
    pub fn number(self) -> u8
        ensures { result ≡ number self }
    {
        match self {
            Version::One => 1,
            Version::Two => 2,
        }
    }

    /// The most processors of a machine in this version (this project's rule).
    pub fn max_cpus(self) -> u8
        ensures { result ≡ cpu_limit_of self }
    {
        match self {
            Version::One => 8,
            Version::Two => 16,
        }
    }

    /// The most frames of a machine in this version (this project's rule).
    pub fn max_frames(self) -> u16
        ensures { result ≡ frame_limit_of self }
    {
        match self {
            Version::One => 256,
            Version::Two => 4096,
        }
    }

    /// The most pages of a script in this version (this project's rule).
    pub fn max_pages(self) -> u16
        ensures { result ≡ page_limit_of self }
    {
        match self {
            Version::One => 256,
            Version::Two => 4096,
        }
    }

    /// The most translations of a script in this version (this project's rule).
    pub fn max_trans(self) -> u16
        ensures { result ≡ translation_limit_of self }
    {
        match self {
            Version::One => 512,
            Version::Two => 4096,
        }
    }
}
