#![tactic(auto)]

// Cases of the memory instructions: sizes of blocks, ends of data, marks, and each stop with its order.
#[cfg(test)]
mod tests {
    use bytecode::stop::Stop;
    use cells::content::{Byte, Reference, Word};
    use cells::memory::Memory;
    use heap::{BlockRecord, Cell};
    use std::process::Abort;
    use std::test::Fail;

    const USED_BEFORE: Cell = Cell {
        bytes: [9; 8],
        mark: true,
    };

    const NO_RECORD: BlockRecord = BlockRecord {
        start: 7,
        from: 7,
        end: 7,
        count: 7,
        size: 7,
    };

    // The number of the stop, or 0 for a value.
    fn stop<T: Drop>(res: Result<T, Stop>) -> u64 {
        match res {
            Ok(_) => 0,
            Err(stop) => stop.number() as u64,
        }
    }

    fn expect<const N: usize>(
        rt: &impl Abort,
        got: Result<[u64; N], Stop>,
        want: [u64; N],
    ) -> Result<(), Fail> {
        match got {
            Ok(seen) => {
                assert_eq!(rt; seen, want);
                Ok(())
            },
            Err(_) => Err(Fail::new("a stop where a value was expected")),
        }
    }

    // new 0 takes no cell, new 1 one; newarray 4 with 3 takes three, newarray 0 with 5 and newarray 8 with 0 one each.
    fn sizes() -> Result<[u64; 6], Stop> {
        let mut cells = [USED_BEFORE; 8];
        let mut records = [NO_RECORD; 8];
        let mut m = Memory::over(&mut cells, &mut records);
        let first = m.new_single(0)?;
        let second = m.new_single(0)?;
        let none = 8 - m.left() as u64;
        let _ = m.new_single(1)?;
        let one = 8 - m.left() as u64;
        let a = m.new_array(4, 3)?;
        let four = 8 - m.left() as u64;
        let _ = m.new_array(0, 5)?;
        let _ = m.new_array(8, 0)?;
        let six = 8 - m.left() as u64;
        Ok([
            none,
            one,
            four,
            six,
            second - first,
            m.array_length(a)? as u64,
        ])
    }

    #[test]
    fn blocks_take_whole_cells(rt: HostRuntime) -> Result<(), Fail> {
        expect(&rt, sizes(), [0, 1, 4, 6, 4294967296, 3])
    }

    // The longest array in four cells has 24 bytes of elements; then nothing is left but blocks without cells, while records last.
    fn fullest() -> Result<[u64; 5], Stop> {
        let mut cells = [USED_BEFORE; 4];
        let mut records = [NO_RECORD; 2];
        let mut m = Memory::over(&mut cells, &mut records);
        let too_long = stop(m.new_array(1, 25));
        let a = m.new_array(1, 24)?;
        let last = m.add_index(a, 23)?;
        m.store::<Byte>(last, 200)?;
        let kept = m.load::<Byte>(last)? as u64;
        let no_cell = stop(m.new_single(1));
        let no_length = stop(m.new_array(1, 2147483648));
        let _ = m.new_single(0)?;
        Ok([too_long, kept, no_cell, no_length, stop(m.new_single(0))])
    }

    #[test]
    fn stops_without_room(rt: HostRuntime) -> Result<(), Fail> {
        expect(&rt, fullest(), [9, 72, 9, 8, 9])
    }

    // Five bytes of data: bounds come before alignment, and the end may be reached but not passed.
    fn ends() -> Result<[u64; 7], Stop> {
        let mut cells = [USED_BEFORE; 1];
        let mut records = [NO_RECORD; 1];
        let mut m = Memory::over(&mut cells, &mut records);
        let a = m.new_single(5)?;
        m.store::<Word>(a, 4278255873)?;
        let last = m.add_field(a, 4)?;
        m.store::<Byte>(last, 127)?;
        let high = m.load::<Byte>(a)? as u64;
        let second = m.add_field(a, 1)?;
        let third = m.add_field(a, 2)?;
        let end = m.add_field(a, 5)?;
        Ok([
            m.load::<Word>(a)? as u64,
            high,
            m.load::<Byte>(last)? as u64,
            stop(m.load::<Byte>(end)),
            stop(m.load::<Word>(second)),
            stop(m.load::<Word>(third)),
            stop(m.add_field(last, 2)),
        ])
    }

    #[test]
    fn data_end(rt: HostRuntime) -> Result<(), Fail> {
        expect(&rt, ends(), [4278255873, 255, 127, 3, 6, 3, 3])
    }

    // Null stored leaves a mark that stays; a cell with any byte that is not zero takes no reference.
    fn marked() -> Result<[u64; 8], Stop> {
        let mut cells = [USED_BEFORE; 2];
        let mut records = [NO_RECORD; 1];
        let mut m = Memory::over(&mut cells, &mut records);
        let a = m.new_single(16)?;
        let b = m.add_field(a, 8)?;
        let fresh = m.load::<Reference>(a)?;
        m.store::<Reference>(a, 0)?;
        let half = m.add_field(a, 4)?;
        let word = stop(m.load::<Word>(half));
        let byte = stop(m.load::<Byte>(half));
        let over_word = stop(m.store::<Word>(half, 0));
        let over_byte = stop(m.store::<Byte>(half, 0));
        m.store::<Reference>(a, b)?;
        m.store::<Word>(b, 1)?;
        Ok([
            fresh,
            word,
            byte,
            over_word,
            over_byte,
            m.load::<Reference>(a)? ^ b,
            stop(m.load::<Reference>(b)),
            stop(m.store::<Reference>(b, 0)),
        ])
    }

    #[test]
    fn marks(rt: HostRuntime) -> Result<(), Fail> {
        expect(&rt, marked(), [0, 7, 7, 7, 7, 0, 7, 7])
    }

    // Alignment comes before the mark; references go at multiples of 8 only.
    fn aligned() -> Result<[u64; 4], Stop> {
        let mut cells = [USED_BEFORE; 2];
        let mut records = [NO_RECORD; 1];
        let mut m = Memory::over(&mut cells, &mut records);
        let a = m.new_single(16)?;
        m.store::<Reference>(a, a)?;
        let b = m.add_field(a, 2)?;
        let c = m.add_field(a, 4)?;
        Ok([
            stop(m.load::<Word>(b)),
            stop(m.load::<Reference>(c)),
            stop(m.store::<Reference>(c, 0)),
            stop(m.store::<Word>(b, 1)),
        ])
    }

    #[test]
    fn alignment(rt: HostRuntime) -> Result<(), Fail> {
        expect(&rt, aligned(), [6, 6, 6, 6])
    }

    // An array's first cell is no data.
    fn elements() -> Result<[u64; 6], Stop> {
        let mut cells = [USED_BEFORE; 3];
        let mut records = [NO_RECORD; 1];
        let mut m = Memory::over(&mut cells, &mut records);
        let a = m.new_array(4, 3)?;
        let e = m.add_index(a, 1)?;
        m.store::<Word>(e, 5)?;
        let inside = m.add_field(a, 3)?;
        let below = stop(m.store::<Word>(a, 1));
        Ok([
            e ^ a,
            m.load::<Word>(e)? as u64,
            stop(m.load::<Byte>(a)),
            stop(m.load::<Word>(inside)),
            below,
            m.array_length(a)? as u64,
        ])
    }

    #[test]
    fn arrays(rt: HostRuntime) -> Result<(), Fail> {
        expect(&rt, elements(), [12, 5, 3, 3, 3, 3])
    }

    // Only an array's own reference is an array, and indexes go from 0 to below its length.
    fn indexes() -> Result<[u64; 6], Stop> {
        let mut cells = [USED_BEFORE; 4];
        let mut records = [NO_RECORD; 2];
        let mut m = Memory::over(&mut cells, &mut records);
        let s = m.new_single(8)?;
        let a = m.new_array(4, 3)?;
        let e = m.add_index(a, 1)?;
        Ok([
            stop(m.add_index(a, 3)),
            stop(m.add_index(a, 4294967295)),
            stop(m.array_length(e)),
            stop(m.add_index(e, 0)),
            stop(m.array_length(s)),
            stop(m.add_index(s, 0)),
        ])
    }

    #[test]
    fn array_references(rt: HostRuntime) -> Result<(), Fail> {
        expect(&rt, indexes(), [3, 3, 4, 4, 4, 4])
    }

    // Elements of no bytes, and no elements: every address is the end of the data.
    fn empty_elements() -> Result<[u64; 5], Stop> {
        let mut cells = [USED_BEFORE; 2];
        let mut records = [NO_RECORD; 2];
        let mut m = Memory::over(&mut cells, &mut records);
        let a = m.new_array(0, 5)?;
        let b = m.new_array(8, 0)?;
        let e = m.add_index(a, 4)?;
        Ok([
            m.array_length(a)? as u64,
            e - a,
            stop(m.load::<Byte>(e)),
            m.array_length(b)? as u64,
            stop(m.add_index(b, 0)),
        ])
    }

    #[test]
    fn arrays_without_data(rt: HostRuntime) -> Result<(), Fail> {
        expect(&rt, empty_elements(), [5, 8, 3, 0, 3])
    }

    // Null and a text, before anything is allocated.
    fn no_blocks() -> Result<[u64; 8], Stop> {
        let mut cells = [USED_BEFORE; 1];
        let mut records = [NO_RECORD; 1];
        let mut m = Memory::over(&mut cells, &mut records);
        Ok([
            stop(m.array_length(0)),
            stop(m.add_field(0, 0)),
            stop(m.load::<Reference>(0)),
            stop(m.array_length(1)),
            stop(m.add_index(65536, 0)),
            stop(m.add_field(1, 0)),
            stop(m.store::<Byte>(65536, 0)),
            stop(m.load::<Word>(1)),
        ])
    }

    #[test]
    fn null_and_texts(rt: HostRuntime) -> Result<(), Fail> {
        expect(&rt, no_blocks(), [2, 2, 2, 4, 4, 5, 5, 5])
    }
}
