//! Laws of studios. Nothing is computed here: the clauses are the laws.
ghost use Rattle.std.specs.Prelude.{◌≡◌, ℕ, ℤ};
ghost use Rattle.mix_packets.specs.Block.{block_head, block_start};
ghost use Rattle.mix_packets.specs.OutSpec.{IsOutput};
ghost use Rattle.studio_config.specs.Shift.{shifted};
ghost use Rattle.studio_config.specs.Studio.{Studio};
ghost use Rattle.studio_config.specs.declared.output_clock.OutputClock.TheVariants.{Media};

/// States that a studio whose output is by the media clock gives the block at a media time one header, whenever it
/// opens: two receivers with the same keys of the output number their datagrams alike. Two shifts are the second one.
pub fn a_media_time_has_one_number()
    ensures header { (studio : Studio) (open_at other : ℤ) (m n : ℕ) → IsOutput studio.output →
        studio.clock ≡ Media →
        block_start (shifted open_at studio).output m ≡ block_start (shifted other studio).output n →
        block_head (shifted open_at studio).output m ≡ block_head (shifted other studio).output n }
    ensures again { (studio : Studio) (open_at other : ℤ) → IsOutput studio.output → studio.clock ≡ Media →
        shifted open_at (shifted other studio) ≡ shifted open_at studio }
{}
