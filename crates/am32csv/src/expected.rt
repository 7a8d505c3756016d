/// What a capture's row should have had.
#[derive(Clone, Copy, Debug, PartialEq, Eq, Drop)]
pub enum Expected {
    Rows,
    Csv,
    Columns,
    Seconds,
    Sample,
    Level,
    LaterTime,
    EarlierTime,
    FewerEdges,
    End,
}

impl Expected {
    /// The words behind `expected`.
    pub fn text(self) -> &'static str {
        match self {
            Expected::Rows => "a row with a time and a level",
            Expected::Csv => "fields between commas",
            Expected::Columns => "the columns of the time and the level",
            Expected::Seconds => "a time in seconds, with at most 15 digits behind the point",
            Expected::Sample => "the number of a sample",
            Expected::Level => "0 or 1 as the level",
            Expected::LaterTime => "a time not below that of the row above",
            Expected::EarlierTime => "a time at most 22.369s after the first row's",
            Expected::FewerEdges => "at most 16777215 edges",
            Expected::End => "the end of the capture",
        }
    }
}
