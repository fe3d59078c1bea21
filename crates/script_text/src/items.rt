//! What the lines of a script say, one by one.

use fault_script::Edit;
use ftpp_base::Ne;
use packet_format::Act;

/// What one line says.
#[derive(Drop)]
pub(crate) enum Item {
    Cycles(u32),
    Faulty(Ne),
    Asked(u32, Act),
    Edited(Edit),
    Rejoined(u32, Option<Ne>),
}

/// What a line has to know of those before it.
#[derive(Drop)]
pub(crate) struct SoFar {
    /// The number of elements.
    pub n: u8,
    /// The length of the run, once it was said.
    pub cycles: Option<u32>,
    /// The element that is faulty from the start on, once it was named.
    pub named: Option<Ne>,
    /// The element that is faulty now.
    pub faulty: Option<Ne>,
    /// The cycle of the last line with one.
    pub last: Option<u32>,
    /// The posts and reads of that cycle.
    pub asked: u32,
}
