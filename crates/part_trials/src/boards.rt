// Plain boards, shifts over them, and words at lists of points.
use board::board::Board;
use board::fault::BoardFault;
use board::plain::PlainBoard;
use board::points::{put_words, read_words};
use board::shift::Shift;
use job::refusal::Refusal;
use std::alloc::Global;
use std::process::Abort;
use std::test::Fail;

const TENS: [u32; 8] = [10, 11, 12, 13, 14, 15, 16, 17];

fn laid(cells: &mut [u32]) -> Result<PlainBoard<'_>, BoardFault> {
    match PlainBoard::new(cells) {
        Ok(board) => Ok(board),
        // No `map_err`: a closure that takes a lent slice by value gets no proof.
        Err((_, fault)) => Err(fault),
    }
}

// All words of a board.
fn held<B: Board>(board: &B, heap: Global) -> Result<Vec<u32>, Fail> {
    let mut words = Vec::new(heap);
    for point in 0..board.size() {
        words.push(board.word(point)?)?;
    }
    Ok(words)
}

fn holds<B: Board>(rt: &impl Abort, board: &B, wanted: &[u32], heap: Global) -> Result<(), Fail> {
    let words = held(board, heap)?;
    assert_eq!(rt; words.as_slice(), wanted);
    Ok(())
}

// At its size a board has no word, and a refused put changes nothing.
fn ends_at_its_size(rt: &impl Abort, cells: &mut [u32]) -> Result<(), Fail> {
    let size = cells.len();
    let mut board = laid(cells)?;
    assert_eq!(rt; board.size(), size);
    assert_eq!(rt; board.put(0, 9), Ok(()));
    assert_eq!(rt; board.put(size, 8), Err(BoardFault::NotOnBoard));
    assert_eq!(rt; board.word(0), Ok(9));
    assert_eq!(rt; board.word(size.saturating_sub(1)).is_ok(), true);
    assert_eq!(rt; board.word(size), Err(BoardFault::NotOnBoard));
    assert_eq!(rt; board.word(usize::MAX), Err(BoardFault::NotOnBoard));
    Ok(())
}

fn is_no_board(rt: &impl Abort, cells: &mut [u32]) -> Result<(), Fail> {
    let size = cells.len();
    let Err((back, fault)) = PlainBoard::new(cells) else {
        return Err(Fail::new("a board of another length"));
    };
    assert_eq!(rt; back.len(), size);
    assert_eq!(rt; fault, BoardFault::WrongLength);
    Ok(())
}

#[test]
fn plain_boards(rt: HostRuntime) -> Result<(), Fail> {
    ends_at_its_size(&rt, &mut [7])?;
    ends_at_its_size(&rt, &mut [7; 2])?;
    ends_at_its_size(&rt, &mut [7; 256])?;
    is_no_board(&rt, &mut [])?;
    is_no_board(&rt, &mut [7; 257])?;
    let mut cells = TENS;
    let mut board = laid(&mut cells)?;
    board.put(3, 99)?;
    assert_eq!(rt; board.put(8, 1), Err(BoardFault::NotOnBoard));
    holds(&rt, &board, &[10, 11, 12, 99, 14, 15, 16, 17], rt.alloc())?;
    let back = board.into_cells();
    assert_eq!(rt; &*back, &[10, 11, 12, 99, 14, 15, 16, 17][..]);
    Ok(())
}

// Two shifts over any board, held by a type that asks no more than that it is one.
#[derive(Drop)]
struct Pile<B: Board> {
    top: Shift<Shift<B>>,
}

// A shift over a lent board, held by a type.
#[derive(Drop)]
struct Window<'a, B: Board> {
    part: Shift<&'a mut B>,
}

#[test]
fn held_shifts(rt: HostRuntime) -> Result<(), Fail> {
    let mut cells = TENS;
    let Ok(middle) = Shift::new(laid(&mut cells)?, 2, 5) else {
        return Err(Fail::new("no shift"));
    };
    let Ok(top) = Shift::new(middle, 1, 3) else {
        return Err(Fail::new("no shift over a shift"));
    };
    let mut pile = Pile { top };
    pile.top.put(0, 99)?;
    let Ok(part) = Shift::new(&mut pile.top, 0, 2) else {
        return Err(Fail::new("no shift over a lent board"));
    };
    let window = Window { part };
    holds(&rt, &window.part, &[99, 14], rt.alloc())
}

// A shift over a shift, held by value and lent; what lies outside its range stays.
#[test]
fn piles(rt: HostRuntime) -> Result<(), Fail> {
    let heap = rt.alloc();
    let mut cells = TENS;
    let bottom = laid(&mut cells)?;
    let Ok(middle) = Shift::new(bottom, 2, 5) else {
        return Err(Fail::new("no shift"));
    };
    let Ok(mut top) = Shift::new(middle, 1, 3) else {
        return Err(Fail::new("no shift over a shift"));
    };
    holds(&rt, &top, &[13, 14, 15], heap)?;
    top.put(0, 99)?;
    assert_eq!(rt; top.word(3), Err(BoardFault::NotOnBoard));
    assert_eq!(rt; top.put(3, 1), Err(BoardFault::NotOnBoard));
    holds(&rt, &top, &[99, 14, 15], heap)?;
    let middle = top.into_below();
    holds(&rt, &middle, &[12, 99, 14, 15, 16], heap)?;
    let mut bottom = middle.into_below();
    if let Ok(mut lent) = Shift::new(&mut bottom, 7, 1) {
        lent.put(0, 98)?;
        holds(&rt, &lent, &[98], heap)?;
    }
    holds(&rt, &bottom, &[10, 11, 12, 99, 14, 15, 16, 98], heap)
}

// Start and size of a shift over eight words, and whether it is one.
static SHIFTS: [(usize, usize, bool); 12] = [
    (0, 8, true),
    (0, 9, false),
    (0, 1, true),
    (0, 0, false),
    (7, 1, true),
    (7, 2, false),
    (8, 0, false),
    (8, 1, false),
    (3, 5, true),
    (3, 6, false),
    (usize::MAX, 1, false),
    (1, usize::MAX, false),
];

#[test]
fn shifts(rt: HostRuntime) -> Result<(), Fail> {
    let mut cells = TENS;
    let mut bottom = laid(&mut cells)?;
    for (start, size, fits) in &SHIFTS {
        match Shift::new(&mut bottom, *start, *size) {
            Ok(shift) => {
                assert!(rt; *fits, "{start} {size}");
                assert_eq!(rt; shift.size(), *size);
            }
            Err((below, fault)) => {
                assert!(rt; !*fits, "{start} {size}");
                assert_eq!(rt; fault, BoardFault::InvalidShift);
                assert_eq!(rt; below.size(), 8);
            }
        }
    }
    holds(&rt, &bottom, &TENS, rt.alloc())
}

// Points and new words, the words read there, and what eight words are once the new ones are put; or the refusal.
static LISTS: [(
    &[u8],
    &[u32],
    Result<&[u32], BoardFault>,
    Result<[u32; 8], BoardFault>,
); 7] = [
    (&[], &[], Ok(&[]), Ok([10, 11, 12, 13, 14, 15, 16, 17])),
    (
        &[7, 0],
        &[1, 2],
        Ok(&[17, 10]),
        Ok([2, 11, 12, 13, 14, 15, 16, 1]),
    ),
    (
        &[7, 6, 5, 4, 3, 2, 1, 0],
        &[1, 2, 3, 4, 5, 6, 7, 8],
        Ok(&[17, 16, 15, 14, 13, 12, 11, 10]),
        Ok([8, 7, 6, 5, 4, 3, 2, 1]),
    ),
    (
        &[0, 1, 2, 3, 4, 5, 6, 7, 0],
        &[1],
        Err(BoardFault::WrongLength),
        Err(BoardFault::WrongLength),
    ),
    (
        &[0, 8],
        &[1, 2],
        Err(BoardFault::NotOnBoard),
        Err(BoardFault::NotOnBoard),
    ),
    (
        &[8],
        &[],
        Err(BoardFault::NotOnBoard),
        Err(BoardFault::WrongLength),
    ),
    (&[0], &[1, 2], Ok(&[10]), Err(BoardFault::WrongLength)),
];

#[test]
fn lists_of_points(rt: HostRuntime) -> Result<(), Fail> {
    for (points, new, read, left) in &LISTS {
        let mut cells = TENS;
        let mut board = laid(&mut cells)?;
        match read_words(&board, points) {
            Ok(words) => assert_eq!(rt; Ok(words.as_slice()), *read),
            Err(fault) => assert_eq!(rt; Err(fault), *read),
        }
        let answer = put_words(&mut board, points, new);
        match left {
            Ok(words) => {
                assert_eq!(rt; answer, Ok(()));
                holds(&rt, &board, words, rt.alloc())?;
            }
            Err(fault) => {
                assert_eq!(rt; answer, Err(*fault));
                holds(&rt, &board, &TENS, rt.alloc())?;
            }
        }
    }
    Ok(())
}

// The numbers and sentences of the refusals.
static FAULTS: [(BoardFault, &str); 3] = [
    (
        BoardFault::WrongLength,
        "13 0 0 0 A list has another length than is wanted.",
    ),
    (
        BoardFault::NotOnBoard,
        "14 0 0 0 A point is not on the board.",
    ),
    (
        BoardFault::InvalidShift,
        "15 0 0 0 A shift has at least one point, and all of its points are on the board below.",
    ),
];

#[test]
fn refusals(rt: HostRuntime) -> Result<(), Fail> {
    for (fault, wanted) in &FAULTS {
        let refusal = Refusal::from(*fault);
        let told = format!(in rt.alloc(); "{refusal} {fault}")?;
        assert_eq!(rt; told.as_str(), *wanted);
    }
    Ok(())
}
