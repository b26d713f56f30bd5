ghost use Rattle.std.specs.Prelude.{◌≡◌, ◌≤◌, length};
ghost use Rattle.std.specs.Option.{option_map, option_and_then};
ghost use Rattle.blender.specs.Machines.{model, reply, after};
ghost use Rattle.rack.specs.Racks.{any_model};

use blender::machine::Machine;
use kinds::Kind;
use mlan::burst::Burst;
use rack::AnyMachine;

// What a caller knows of a machine that it is lent, by its type alone.
pub fn known<K: Kind>(machine: &Machine<K>)
    ensures from_one { 1 ≤ (model K.Kind.facts machine.now).address }
    ensures to_254 { (model K.Kind.facts machine.now).address ≤ 254 }
    ensures twelve { length (model K.Kind.facts machine.now).totals ≡ 12 }
{}

// A caller can match a machine of any kind through `&mut` inside an option.
pub fn asked(machine: &mut Option<AnyMachine>, burst: &[u8]) -> Option<Burst>
    ensures reply { result ≡ option_and_then (λ m. reply (any_model m) burst.now) machine.old }
    ensures machine { option_map any_model machine.new ≡ option_map (λ m. after (any_model m) burst.now) machine.old }
{
    match machine {
        Some(machine) => machine.answer(burst),
        None => None,
    }
}
