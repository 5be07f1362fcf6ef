// What follows from the definitions alone.
ghost use Rattle.std.specs.Prelude.{◌≡◌, ◌≢◌, ℕ, List, [], ◌++◌, length, Ok, Err};
ghost use Rattle.cloud_base.specs.declared.schema.Schema.{Schema};
ghost use Rattle.packet_bytes.specs.Left.{IsBytes};
ghost use Rattle.packet_bytes.specs.Reading.{packet_of};
ghost use Rattle.packet_bytes.specs.Spelling.{spelling, IsPacketOf};
ghost use Rattle.packet_bytes.specs.declared.fault.WireFault.{WireFault};
ghost use Rattle.packet_bytes.specs.declared.wire.Wire.{Wire};

/// The bytes of a packet for a schema are the spelling of no other, and begin none.
pub fn spellings_are_apart()
    ensures { (schema : Schema) (wire other : Wire) (more : List ℕ) →
        IsPacketOf schema wire → IsPacketOf schema other →
        spelling wire ++ more ≡ spelling other → (wire ≡ other) × (more ≡ []) }
{
    change_lists::total_list_orders();
}

/// A packet is read from its spelling, and from nothing else.
pub fn packets_are_read()
    ensures again { (schema : Schema) (wire : Wire) → IsPacketOf schema wire →
        packet_of schema (spelling wire) ≡ Ok wire }
    ensures only { (schema : Schema) (bytes : List ℕ) (wire : Wire) → IsBytes bytes →
        packet_of schema bytes ≡ Ok wire → IsPacketOf schema wire × (bytes ≡ spelling wire) }
{
    change_lists::total_list_orders();
}

/// Bytes of which a packet's spelling has more end too soon. Every other fault is told by the bytes
/// up to where it is judged: it stays, whatever follows.
pub fn faults_are_first()
    ensures fronts { (schema : Schema) (wire : Wire) (front more : List ℕ) →
        IsPacketOf schema wire → IsBytes front → front ++ more ≡ spelling wire → more ≢ [] →
        packet_of schema front ≡ Err (WireFault.Short (length front)) }
    ensures stays { (schema : Schema) (bytes more : List ℕ) (fault : WireFault) →
        IsBytes bytes → packet_of schema bytes ≡ Err fault →
        fault ≢ WireFault.Short (length bytes) → packet_of schema (bytes ++ more) ≡ Err fault }
{
    change_lists::total_list_orders();
}
