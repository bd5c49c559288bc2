// Names of documents.
ghost use Rattle.std.specs.Prelude.{◌↔◌, IsTrue};
ghost use Rattle.alta_codec.specs.Name.{IsName};

/// Whether the bytes may name a document: 1 to 64 graphic ASCII bytes, 0x21 to 0x7E.
pub fn name_ok(name: &[u8]) -> bool
    ensures { IsTrue result ↔ IsName name.now }
{
    1 <= name.len() && name.len() <= 64 && name.iter().all(|byte| 0x21 <= *byte && *byte <= 0x7E)
}
