// Totals and cycle counts that pass their ends, which takes thousands of batches; and what a caller
// in another crate has of a machine.
#![tactic(auto)]

pub mod callers;

#[cfg(test)]
mod tests {
    use super::callers::{asked, known};
    use blender::machine::Machine;
    use kinds::{Feeder, Kind, Twelve};
    use rack::AnyMachine;
    use std::process::Abort;
    use std::test::Fail;
    use terms::Unit;
    use terms::address::Address;

    // A new machine at address 5.
    // as in the tests of cables, with which this crate shares no library of tests
    fn machine<K: Kind + Drop>(unit: Unit, kind: K) -> Result<Machine<K>, Fail> {
        let address = Address::new(5).map_err(|_| Fail::new("5 is an address"))?;
        Ok(Machine::new(address, unit, kind))
    }

    // Runs the same batch again and again at address 5.
    fn run<K: Kind>(rt: &impl Abort, machine: &mut Machine<K>, amounts: &[u32], times: u32) {
        for _ in 0..times {
            assert!(rt; machine.batch(5, amounts).is_ok());
        }
    }

    // Asks for the totals by a code, and compares cycles, flags, one total and the checksum.
    fn expect<K: Kind>(
        rt: &impl Abort,
        machine: &mut Machine<K>,
        ask: [u8; 3],
        at: usize,
        cycles: [u8; 2],
        flags: [u8; 2],
        total: [u8; 4],
        sum: u8,
    ) {
        let reply = machine.answer(&ask).expect(rt, "a reply");
        assert_eq!(rt; reply.as_slice().len(), 59);
        let out = reply.padded();
        assert!(rt; at < 60);
        assert_eq!(rt; [out[6], out[7]], cycles);
        assert_eq!(rt; [out[8], out[9]], flags);
        assert_eq!(rt; [out[at], out[at + 1], out[at + 2], out[at + 3]], total);
        assert_eq!(rt; out[58], sum);
    }

    // 4,294 batches of 1,000,000 and one of 967,295 fill place 1 to its end. One unit more
    // turns it over, and sets flag bits 0 and 1; code 16 shows them once more and clears them.
    #[test]
    fn total_turns_over(rt: HostRuntime) -> Result<(), Fail> {
        let mut machine = machine(Unit::Tenths, Twelve)?;
        run(
            &rt,
            &mut machine,
            &[1_000_000, 0, 0, 0, 0, 0, 0, 0, 0, 0, 0, 0],
            4_294,
        );
        run(
            &rt,
            &mut machine,
            &[967_295, 0, 0, 0, 0, 0, 0, 0, 0, 0, 0, 0],
            1,
        );
        expect(
            &rt,
            &mut machine,
            [5, 17, 233],
            10,
            [16, 199],
            [0, 0],
            [255, 255, 255, 255],
            8,
        );
        run(&rt, &mut machine, &[1, 0, 0, 0, 0, 0, 0, 0, 0, 0, 0, 0], 1);
        expect(
            &rt,
            &mut machine,
            [5, 17, 233],
            10,
            [16, 200],
            [0, 3],
            [0, 0, 0, 0],
            0,
        );
        expect(
            &rt,
            &mut machine,
            [5, 16, 234],
            10,
            [16, 200],
            [0, 3],
            [0, 0, 0, 0],
            1,
        );
        expect(
            &rt,
            &mut machine,
            [5, 17, 233],
            10,
            [16, 200],
            [0, 0],
            [0, 0, 0, 0],
            3,
        );
        Ok(())
    }

    // A feeder's one component stands at place 12: bits 0 and 12.
    #[test]
    fn feeder_turns_over(rt: HostRuntime) -> Result<(), Fail> {
        let mut machine = machine(Unit::Grams, Feeder)?;
        run(&rt, &mut machine, &[1_000_000], 4_295);
        expect(
            &rt,
            &mut machine,
            [5, 17, 233],
            54,
            [16, 199],
            [16, 1],
            [0, 0, 127, 192],
            173,
        );
        Ok(())
    }

    // 65,536 batches of nothing bring the count of cycles back to 0, and set no flag.
    #[test]
    fn cycles_turn_over(rt: HostRuntime) -> Result<(), Fail> {
        let mut machine = machine(Unit::Tenths, Feeder)?;
        run(&rt, &mut machine, &[0], 65_535);
        expect(
            &rt,
            &mut machine,
            [5, 17, 233],
            54,
            [255, 255],
            [0, 0],
            [0, 0, 0, 0],
            221,
        );
        run(&rt, &mut machine, &[0], 1);
        expect(
            &rt,
            &mut machine,
            [5, 17, 233],
            54,
            [0, 0],
            [0, 0],
            [0, 0, 0, 0],
            219,
        );
        Ok(())
    }

    // A machine in an option is asked for its type, and no machine is.
    #[test]
    fn asked_in_an_option(rt: HostRuntime) -> Result<(), Fail> {
        let machine = machine(Unit::Tenths, Twelve)?;
        known(&machine);
        let mut hung = Some(AnyMachine::OfTwelve(machine));
        let reply = asked(&mut hung, &[5, 49, 201]).expect(&rt, "a reply");
        assert_eq!(rt; reply.as_slice(), [5, 49, 2, 12, 187].as_slice());
        hung = None;
        assert!(rt; asked(&mut hung, &[5, 49, 201]).is_none());
        Ok(())
    }
}
