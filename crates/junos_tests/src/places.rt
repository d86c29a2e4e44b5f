// Where a byte of a text stands, as an editor counts it.

/// The line and the column, from 1, of the byte at `start`, counted from 0.
pub fn place(text: &str, start: u64) -> (u64, u64) {
    let mut line: u64 = 1;
    let mut column: u64 = 1;
    let mut at: u64 = 0;
    for byte in text.as_bytes() {
        if at == start {
            return (line, column);
        }
        at = at.saturating_add(1);
        column = column.saturating_add(1);
        if *byte == b'\n' {
            line = line.saturating_add(1);
            column = 1;
        }
    }
    (line, column)
}
