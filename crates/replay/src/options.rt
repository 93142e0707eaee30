//! What a replay is to do.

/// What a replay is to do.
#[derive(Clone, Copy)]
pub struct ReplayOptions<'a> {
    /// The file of records, or `-` for standard input.
    pub file: &'a str,
    /// The address of the server.
    pub address: &'a str,
    /// The names of the fields that aren't compared, with commas between.
    pub ignore: Option<&'a str>,
    /// How fast requests are sent, in percent of how fast they were recorded; 0 is taken as 1.
    /// Without it, as fast as answers come.
    pub speed: Option<u64>,
}
