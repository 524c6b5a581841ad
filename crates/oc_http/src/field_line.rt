//! Lines of a head that may be missing.

ghost use Rattle.std.specs.Prelude.{◌≡◌, [], ◌++◌, option_map};
ghost use Rattle.oc_http.specs.Parts.{line_text};
ghost use Rattle.oc_http.specs.Writing.{line_end, mac_line};

/// A line of a head; all three parts are empty where the head has no such line.
#[derive(Clone, Copy)]
pub(crate) struct FieldLine<'a> {
    /// The name, with the colon and the space after it.
    pub(crate) name: &'a [u8],
    pub(crate) value: &'a [u8],
    /// The end of the line.
    pub(crate) end: &'a [u8],
}

pub(crate) fn field_line<'a>(name: &'a [u8], value: &'a [u8]) -> FieldLine<'a>
    ensures { line_text result ≡ name.now ++ value.now ++ line_end }
{
    FieldLine {
        name,
        value,
        end: b"\r\n",
    }
}

pub(crate) fn no_line<'a>() -> FieldLine<'a>
    ensures { line_text result ≡ [] }
{
    FieldLine {
        name: b"",
        value: b"",
        end: b"",
    }
}

/// `Overcast-Mac`, where there is a MAC.
pub(crate) fn mac_line(mac: Option<&[u8]>) -> FieldLine<'_>
    ensures { line_text result ≡ mac_line (option_map (λ m. m.now) mac.entry) }
{
    match mac {
        Some(mac) => field_line(b"Overcast-Mac: ", mac),
        None => no_line(),
    }
}
