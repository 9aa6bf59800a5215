//! Tables of texts by status.
ghost use Rattle.std.specs.Prelude.{◌≡◌, map, option_copied};
ghost use Rattle.rkt_http.specs.Table.{row_at};

use crate::status::Status;

/// The text in the first row of this code.
pub(crate) fn text_at(rows: &[(Status, &'static str)], code: u16) -> Option<&'static str>
    ensures { option_copied result ≡ row_at code (map (λ row. (row.0.code, row.1.now)) rows.now) }
{
    for row in rows {
        if row.0.code == code {
            return Some(row.1);
        }
    }
    None
}
