//! The manifest reader for C, as packing/manifest.h declares it. Document 01, "What the monitor covers".
#![tactic(auto)]

ghost use Rattle.std.specs.Prelude.{◌≡◌};
ghost use Rattle.manifest.specs.Verdict.{answer_of};

/// The packing tool's question: 0 for a good manifest, 3 for any other bytes.
#[unsafe(no_mangle)]
pub extern "C" fn manifest_check(bytes: &[u8]) -> u32
    ensures { result ≡ answer_of bytes.now }
{
    manifest::manifest_check(bytes)
}
