//! Names on the wire.
ghost use Rattle.std.specs.Prelude.{◌≡◌, ◌↔◌, [], ◌∷◌, ◌++◌, IsTrue, IsNone, IfSome};
ghost use Rattle.dnssec_base.specs.WireName.{IsWireName, AreLabels, IsLabel, wire_label};

/// The most bytes of a label (RFC 1035, section 2.3.4).
pub const MAX_LABEL: usize = 63;

/// The most bytes of a name on the wire (RFC 1035, section 2.3.4).
pub const MAX_NAME: usize = 255;

/// Whether `octets` are one whole name on the wire and nothing more: labels of 1 to 63 bytes, each
/// after its length byte, then the root's zero byte, and at most 255 bytes in all.
pub fn is_wire_name(octets: &[u8]) -> bool
    ensures { IsTrue result ↔ IsWireName octets.now }
{
    octets.len() <= MAX_NAME && are_labels(octets)
}

/// Whether `octets` are labels of 1 to 63 bytes, each after its length byte, then the root's zero
/// byte, and nothing after it. How long they are together isn't asked.
#[tactic(auto, using(crate::proofs::WireLabels::label_front))]
fn are_labels(octets: &[u8]) -> bool
    ensures { IsTrue result ↔ AreLabels 0 octets.now }
{
    let mut rest = octets;
    'labels: while let Some((_, after)) = split_label(rest) {
        rest = after;
    }
    matches!(rest, [0])
}

/// Splits the first label off `octets`: answers the label without its length byte, and the bytes
/// after it. `None` if no whole label of 1 to 63 bytes stands at the front.
#[tactic(auto, using(crate::proofs::WireLabels::front))]
pub fn split_label(octets: &[u8]) -> Option<(&[u8], &[u8])>
    ensures label { IfSome result (λ split. IsLabel split.0.now) }
    ensures split { IfSome result (λ split.
        octets.now ≡ wire_label split.0.now ++ split.1.now) }

    // Only the root has no label at its front.
    ensures root { IsNone result → AreLabels 0 octets.now → octets.now ≡ 0 ∷ [] }
{
    let (&length, after) = octets.split_first()?;
    let length = usize::from(length);
    if length == 0 || length > MAX_LABEL {
        return None;
    }
    after.split_at_checked(length)
}
