//! A run of `bridge` and a run of `unbridge`.
ghost use Rattle.std.specs.Prelude.{ℕ, List};
ghost use Rattle.wire_spec.specs.Content.{File};
ghost use Rattle.command_words.specs.declared.carrier.Carrier.{Carrier};
ghost use Rattle.ipencap_engine.specs.Jobs.{bridge_carrier};
ghost use Rattle.two_runs_law.specs.Runs.{IsBridgeRun, IsUnbridgeRun};
ghost use Rattle.two_runs_law.specs.Bridged.{AreBridgedBytes, ArrivesBridged};

use bridge_law::{
    a_bridged_stream_is_cut_into_its_pieces, bridged_frames_are_carried_in_pdus,
    bridged_frames_are_carried_in_sndus, frames_to_carry_have_room,
};
use ts_record::cuts_are_unique;

/// The bytes that a `bridge` put out, which ended Done or Capture, are those of the captured Ethernet frames that it carries.
pub fn what_a_bridge_puts_out()
    ensures bytes { (carrier : Carrier) (capture bytes : List ℕ) → IsBridgeRun carrier capture bytes → AreBridgedBytes (bridge_carrier carrier) capture bytes }
{}

/// What the file of an `unbridge` has of the capture of a `bridge` on the same carrier.
pub fn what_arrives_of_a_bridge()
    ensures arrives { (carrier : Carrier) (capture bytes recording : List ℕ) (files : List File) → IsBridgeRun carrier capture bytes
        → IsUnbridgeRun carrier recording files
        → (is : AreBridgedBytes (bridge_carrier carrier) capture bytes) × ArrivesBridged (bridge_carrier carrier) capture bytes is recording files }
{
    what_a_bridge_puts_out();
    frames_to_carry_have_room();
    a_bridged_stream_is_cut_into_its_pieces();
    bridged_frames_are_carried_in_sndus();
    bridged_frames_are_carried_in_pdus();
    cuts_are_unique();
}
