use ios_reader::CheckedIos;

/// A checked policy of one of the languages.
#[derive(Debug, Drop)]
pub enum Policy {
    /// A route-map of Cisco IOS.
    Ios(CheckedIos),
}
