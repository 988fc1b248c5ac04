/// One event of an afternoon.
#[derive(Clone, Copy)]
pub enum Event {
    /// A card for a round, with its value.
    Card { key: u16, value: u64 },
    /// A card that was posted before, with its right value.
    Correction { key: u16, value: u64 },
    /// The rounds first, first + 1, .. are read for the index of a key.
    Recalculation { first: u16, count: u16, index: u16 },
    /// The index is written, and the recalculation committed.
    Finish,
    /// The club list as it is now.
    List,
    /// The figures of the rounds first, first + 1, .. as they are now.
    Figures { first: u16, count: u16 },
    /// A report is opened, which shows the club as it is now for as long as it is open.
    Report,
    /// The club list that an open report shows.
    Show { report: u32 },
    /// The figures of a run of rounds that an open report shows.
    ShowFigures { report: u32, first: u16, count: u16 },
    /// A report is closed.
    Close { report: u32 },
    /// Versions that nobody can see any more are removed.
    CleanUp,
}
