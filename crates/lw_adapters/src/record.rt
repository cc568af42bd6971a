//! Records of bytes that only contracts see.
ghost use Rattle.std.specs.Prelude.{◌≡◌, ◌++◌};
ghost use Rattle.lw_adapters.specs.Recorded.{bytes_of};

use http_server::Log;

/// Bytes, one by one.
pub(crate) type Bytes = Log<u8, ()>;

/// Records these bytes behind those that there are. Takes no memory.
pub(crate) fn record(bytes: &mut Bytes, more: &[u8])
    ensures { bytes_of bytes.new.items ≡ bytes_of bytes.old.items ++ more.now }
{
    for byte in more {
        *bytes = bytes.and(byte, &());
    }
}

/// The record of just these bytes.
pub(crate) fn recorded(bytes: &[u8]) -> Bytes
    ensures { bytes_of result.items ≡ bytes.now }
{
    let mut all = Bytes::new();
    record(&mut all, bytes);
    all
}
