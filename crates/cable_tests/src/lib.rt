// Machines on a cable, lines and serving, by examples worked out by hand.
#![tactic(auto)]

#[cfg(test)]
mod tests {
    use blender::machine::Machine;
    use cable::Way;
    use cable::buffer::BufferRefusal;
    use cable::carrier::Carrier;
    use cable::line::{Line, taken};
    use cable::pair::Pair;
    use kinds::{Feeder, Four, Kind, Twelve};
    use mlan::burst::Burst;
    use segment::joined::Joined;
    use segment::segment::{Said, Segment};
    use serving::serve;
    use std::process::Abort;
    use std::test::Fail;
    use terms::Unit;
    use terms::address::Address;

    fn machine<K: Kind + Drop>(address: u8, unit: Unit, kind: K) -> Result<Machine<K>, Fail> {
        let address = Address::new(address).map_err(|_| Fail::new("1 to 254 is an address"))?;
        Ok(Machine::new(address, unit, kind))
    }

    // Puts a burst down, has it served into a buffer of 70 bytes that was full of sevens, and
    // compares the reply on the line and every byte of the buffer.
    fn exchange<L: Line, D: Segment>(
        rt: &impl Abort,
        line: &mut L,
        drop: &mut D,
        burst: &[u8],
        reply: &[u8],
    ) -> Result<(), Fail> {
        let mut buffer = [7; 70];
        line.put(Way::Down, burst);
        let Ok(len) = serve(line, drop, &mut buffer) else {
            return Err(Fail::new("70 bytes are enough"));
        };
        assert_eq!(rt; len, reply.len());
        assert!(rt; len <= 64);
        assert_eq!(rt; &buffer[0..len], reply);
        for byte in &buffer[len..] {
            assert_eq!(rt; *byte, 0);
        }
        let up = taken(line, Way::Up);
        assert_eq!(rt; up.as_ref().map_or(&[][..], Burst::as_slice), reply);
        Ok(())
    }

    // A Four, a Twelve and a Feeder: each answers at its own address. What goes to all has no
    // reply, since three collide, but every machine obeys.
    #[test]
    fn three_kinds_on_one_cable(rt: HostRuntime) -> Result<(), Fail> {
        let four = machine(3, Unit::Tenths, Four)?;
        let twelve = machine(5, Unit::Grams, Twelve)?;
        let feeder = machine(9, Unit::Tenths, Feeder)?;
        let mut drop = Joined::new(four, Joined::new(twelve, feeder));
        let mut line = Carrier::new();
        for (burst, reply) in [
            (&[3, 49, 203][..], &[3, 49, 2, 4, 197][..]),
            (&[5, 49, 201], &[5, 49, 9, 12, 180]),
            (&[9, 49, 197], &[9, 49, 2, 12, 183]),
            (&[4, 49, 202], &[]),
            (&[0, 86, 2, 167], &[]),
            (&[3, 85, 167], &[3, 85, 2, 165]),
            (&[5, 85, 165], &[5, 85, 2, 163]),
            (&[9, 85, 161], &[9, 85, 0, 161]),
        ] {
            exchange(&rt, &mut line, &mut drop, burst, reply)?;
        }
        Ok(())
    }

    // Alone on the cable, a machine answers what goes to all, with its own address.
    #[test]
    fn to_all_on_a_cable_of_one(rt: HostRuntime) -> Result<(), Fail> {
        let mut twelve = machine(5, Unit::Tenths, Twelve)?;
        let mut line = Pair::new();
        for (burst, reply) in [
            (&[0, 49, 206][..], &[5, 49, 2, 12, 187][..]),
            (&[0, 86, 4, 165], &[5, 48, 6, 196]),
            (&[5, 85, 165], &[5, 85, 4, 161]),
        ] {
            exchange(&rt, &mut line, &mut twelve, burst, reply)?;
        }
        Ok(())
    }

    // Two machines at one address both obey, and nobody understands their replies.
    #[test]
    fn two_at_one_address(rt: HostRuntime) -> Result<(), Fail> {
        let left = machine(5, Unit::Tenths, Twelve)?;
        let right = machine(5, Unit::Tenths, Twelve)?;
        let mut drop = Joined::new(left, right);
        let mut line = Pair::new();
        exchange(&rt, &mut line, &mut drop, &[5, 86, 4, 160], &[])?;
        exchange(&rt, &mut line, &mut drop, &[5, 85, 165], &[])?;
        exchange(
            &rt,
            &mut line,
            &mut drop.left,
            &[5, 85, 165],
            &[5, 85, 4, 161],
        )?;
        exchange(
            &rt,
            &mut line,
            &mut drop.right,
            &[5, 85, 165],
            &[5, 85, 4, 161],
        )
    }

    // What two joined machines say to a burst: a reply, nothing, or a clash.
    #[test]
    fn said_by_two_joined(rt: HostRuntime) -> Result<(), Fail> {
        let left = machine(5, Unit::Tenths, Twelve)?;
        let right = machine(6, Unit::Tenths, Feeder)?;
        let mut drop = Joined::new(left, right);
        let reply = Said::from(Burst::new(&[5, 49, 2, 12, 187]));
        assert_eq!(rt; drop.show(&[5, 49, 201]), reply);
        assert_eq!(rt; drop.show_fit(&[5, 49, 201]), reply);
        assert_eq!(rt; drop.show_fit(&[4, 49, 202]), Said::Nothing);
        assert_eq!(rt; drop.show_fit(&[0, 49, 206]), Said::Clash);
        Ok(())
    }

    // The length of the reply to a question for the settings, and its byte with the mark.
    fn mark<K: Kind>(machine: &mut Machine<K>) -> Option<(usize, u8)> {
        let reply = machine.answer(&[9, 20, 226])?;
        Some((reply.as_slice().len(), reply.padded()[2]))
    }

    // A batch goes to the leftmost machine of its address: its mark is up, the other's is not.
    #[test]
    fn batch_at_the_leftmost(rt: HostRuntime) -> Result<(), Fail> {
        let left = machine(9, Unit::Grams, Feeder)?;
        let right = machine(9, Unit::Grams, Feeder)?;
        let mut drop = Joined::new(left, right);
        assert!(rt; Segment::batch(&mut drop, 9, &[4711]).is_ok());
        assert_eq!(rt; mark(&mut drop.left), Some((49, 10)));
        assert_eq!(rt; mark(&mut drop.right), Some((49, 9)));
        Ok(())
    }

    // A buffer of 63 bytes is refused with 1; the burst is still on the line.
    #[test]
    fn short_buffer(rt: HostRuntime) -> Result<(), Fail> {
        let mut twelve = machine(5, Unit::Tenths, Twelve)?;
        let mut line = Pair::new();
        let mut small = [7; 63];
        line.put(Way::Down, &[5, 49, 201]);
        let refused = serve(&mut line, &mut twelve, &mut small);
        assert_eq!(rt; refused.map_err(BufferRefusal::number), Err(1));
        assert_eq!(rt; small, [7; 63]);
        let mut buffer = [7; 64];
        let served = serve(&mut line, &mut twelve, &mut buffer);
        assert_eq!(rt; served, Ok(5));
        assert_eq!(rt; buffer[4], 187);
        assert_eq!(rt; buffer[5], 0);
        Ok(())
    }

    fn expect<L: Line>(rt: &impl Abort, line: &mut L, way: Way, byte: u8) {
        let mut lent = [7; 64];
        assert_eq!(rt; line.take(way, &mut lent), Some(2));
        assert_eq!(rt; [lent[0], lent[1], lent[2]], [byte, 0, 7]);
    }

    // A carrier holds eight each way, first in first out; the ninth is dropped.
    #[test]
    fn carrier_that_is_full(rt: HostRuntime) {
        let mut line = Carrier::new();
        for k in 1..10 {
            line.put(Way::Down, &[k, 0]);
        }
        line.put(Way::Up, &[77, 0]);
        for k in 1..9 {
            expect(&rt, &mut line, Way::Down, k);
        }
        assert_eq!(rt; line.take(Way::Down, &mut [0; 64]), None);
        expect(&rt, &mut line, Way::Up, 77);
        assert_eq!(rt; line.take(Way::Up, &mut [0; 64]), None);
    }

    // A pair holds one each way, the newest; what is no burst is not put.
    #[test]
    fn pair_that_is_full(rt: HostRuntime) {
        let mut line = Pair::new();
        line.put(Way::Up, &[1, 0]);
        line.put(Way::Up, &[2, 0]);
        line.put(Way::Up, &[]);
        line.put(Way::Up, &[3; 65]);
        expect(&rt, &mut line, Way::Up, 2);
        assert_eq!(rt; line.take(Way::Up, &mut [0; 64]), None);
        assert_eq!(rt; line.take(Way::Down, &mut [0; 64]), None);
    }
}
