// `has_optional_pes_header` and `detect_packet_layout`.
ghost use Rattle.std.specs.Prelude.{◌≡◌};
ghost use Rattle.pes.specs.StreamId.{has_optional_header};
ghost use Rattle.packet.specs.Layout.{layout_of};
ghost use Rattle.leaves.specs.Leaves.{flag_word, size_found};

// Ruled out: 1 for an id without the header; a word other than 0 and 1.
#[unsafe(no_mangle)]
pub extern "C" fn leaf_optional_header(id: u8) -> u64
    ensures { result ≡ flag_word (has_optional_header id) }
{
    u64::from(pes::has_optional_pes_header(id))
}

// Ruled out: a size for bytes without a layout; the sync byte's place in place of the size.
#[unsafe(no_mangle)]
#[tactic(auto, unfolding(crate::specs::Leaves::size_found))]
pub extern "C" fn leaf_layout(bytes: &[u8]) -> u64
    ensures { result ≡ size_found (layout_of bytes.now) }
{
    packet::detect_packet_layout(bytes).map_or(0, |layout| layout.packet_size as u64)
}
