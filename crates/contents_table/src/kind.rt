//! The kinds of channels (LIGO-T970130 v8: FrAdcData, FrProcData, FrSimData, FrSerData).

ghost use Rattle.std.specs.Prelude.{◌≡◌};
ghost use Rattle.contents_table.specs.Channels.{structure_of, is_under_raw_data};
ghost use Rattle.contents_table.specs.Fit.{count_field, names_field, positions_field};

/// A kind of channels.
#[derive(Clone, Copy, Debug, PartialEq, Eq)]
pub enum Kind {
    /// FrAdcData under FrRawData.
    Adc,
    /// FrProcData under FrameH.
    Proc,
    /// FrSimData under FrameH.
    Sim,
    /// FrSerData under FrRawData.
    Ser,
}

impl Kind {
    /// The name of the structure that a channel is.
    pub fn structure(self) -> &'static [u8]
        ensures { result.now ≡ structure_of self }
    {
        match self {
            Kind::Adc => b"FrAdcData",
            Kind::Proc => b"FrProcData",
            Kind::Sim => b"FrSimData",
            Kind::Ser => b"FrSerData",
        }
    }

    /// Whether its channels are under FrRawData, and not under FrameH.
    pub fn is_under_raw_data(self) -> bool
        ensures { result ≡ is_under_raw_data self }
    {
        matches!(self, Kind::Adc | Kind::Ser)
    }

    /// The field of a table that has the number of its names.
    pub fn count_field(self) -> &'static [u8]
        ensures { result.now ≡ count_field self }
    {
        match self {
            Kind::Adc => b"nADC",
            Kind::Proc => b"nProc",
            Kind::Sim => b"nSim",
            Kind::Ser => b"nSer",
        }
    }

    /// The field that has its names.
    pub fn names_field(self) -> &'static [u8]
        ensures { result.now ≡ names_field self }
    {
        match self {
            Kind::Adc => b"name",
            Kind::Proc => b"nameProc",
            Kind::Sim => b"nameSim",
            Kind::Ser => b"nameSer",
        }
    }

    /// The field that has the positions of its names.
    pub fn positions_field(self) -> &'static [u8]
        ensures { result.now ≡ positions_field self }
    {
        match self {
            Kind::Adc => b"positionADC",
            Kind::Proc => b"positionProc",
            Kind::Sim => b"positionSim",
            Kind::Ser => b"positionSer",
        }
    }
}
