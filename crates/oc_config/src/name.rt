ghost use Rattle.std.specs.Prelude.{◌≡◌};
ghost use Rattle.std.specs.List.{list_all};
ghost use Rattle.oc_config.specs.Names.{is_name, is_name_byte};

/// The greatest number of bytes of the name of a node.
pub const MAX_NAME_BYTES: usize = 64;

/// Whether a text is the name of a node: 1 to 64 bytes from 32 to 126, without `"` and `\`.
pub(crate) fn is_name(text: &[u8]) -> bool
    ensures { result ≡ is_name text.now }
{
    !text.is_empty() && text.len() <= MAX_NAME_BYTES && are_name_bytes(text)
}

fn are_name_bytes(bytes: &[u8]) -> bool
    ensures { result ≡ list_all is_name_byte bytes.now }
{
    bytes.iter().all(|b| is_name_byte(*b))
}

fn is_name_byte(byte: u8) -> bool
    ensures { result ≡ is_name_byte byte }
{
    matches!(byte, b' '..=b'~') && byte != b'"' && byte != b'\\'
}
