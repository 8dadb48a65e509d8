ghost use Rattle.std.specs.Prelude.{◌≡◌, ◌∷◌, [], IfOk, true};
ghost use Rattle.std.specs.Char.{is_ascii_digit};
ghost use Rattle.std.specs.List.{list_all};

use pgq_base::*;
use std::alloc::Global;
use std::cmp::Ordering;
use std::test::Fail;

fn bytes(alloc: Global, text: &str) -> Result<List<u8>, NoMemory> {
    let mut list = List::new(alloc);
    list.extend(text.as_bytes())?;
    Ok(list)
}

fn one<T: Drop>(alloc: Global, item: T) -> Result<List<T>, NoMemory>
    ensures { IfOk result (λ list. list ≡ item ∷ []) }
{
    let mut list = List::new(alloc);
    list.push(item)?;
    Ok(list)
}

fn are_digits(bytes: &[u8]) -> bool
    ensures { result ≡ list_all is_ascii_digit bytes.now }
{
    bytes.iter().all(|byte| byte.is_ascii_digit())
}

// The value of these digits on both sides of a point, and Null where they are none or too many.
fn sized(whole: &str, fraction: &str, negative: bool) -> Value {
    let whole = whole.as_bytes();
    let fraction = fraction.as_bytes();
    if !are_digits(whole) || !are_digits(fraction) {
        return Value::Null;
    }
    match Size::from_digits(whole, fraction) {
        Some(size) => size.value(negative),
        None => Value::Null,
    }
}

// Kleene's tables, row by row in the order False, Unknown, True.
#[test]
fn three_values(rt: HostRuntime) {
    let all = [Truth3::False, Truth3::Unknown, Truth3::True];
    let nots = [Truth3::True, Truth3::Unknown, Truth3::False];
    let [f, u, t] = all;
    let ands = [f, f, f, f, u, u, f, u, t];
    let ors = [f, u, t, u, u, t, t, t, t];
    for i in 0..3usize {
        assert!(rt; all[i].not() == nots[i], "not {i}");
        for k in 0..3usize {
            assert!(rt; all[i].and(all[k]) == ands[3 * i + k], "{i} and {k}");
            assert!(rt; all[i].or(all[k]) == ors[3 * i + k], "{i} or {k}");
        }
    }
}

#[test]
fn values_compare(rt: HostRuntime) -> Result<(), Fail> {
    let least = ValueRef::Number(-9_223_372_036_854_775_808);
    let most = ValueRef::Number(9_223_372_036_854_775_807);
    assert!(rt; compare(least, most) == Some(Ordering::Less));
    assert!(rt; compare(most, least) == Some(Ordering::Greater));
    assert!(rt; compare(most, most) == Some(Ordering::Equal));
    assert!(rt; compare(ValueRef::Truth(false), ValueRef::Truth(true)) == Some(Ordering::Less));
    // By bytes: Z (5A) comes before a (61), and a before é (C3 A9); a prefix comes first.
    assert!(rt; compare(ValueRef::Text("Z"), ValueRef::Text("a")) == Some(Ordering::Less));
    assert!(rt; compare(ValueRef::Text("é"), ValueRef::Text("z")) == Some(Ordering::Greater));
    assert!(rt; compare(ValueRef::Text("a"), ValueRef::Text("a ")) == Some(Ordering::Less));
    assert!(rt; compare(ValueRef::Null, most) == None);
    assert!(rt; compare(ValueRef::Text("a"), ValueRef::Null) == None);
    assert!(rt; compare(ValueRef::Null, ValueRef::Null) == None);

    let alloc = rt.alloc();
    let text = Value::Text(Text::from_text(alloc, "a")?);
    let copy = text.copy(alloc)?;
    assert!(rt; compare(text.as_ref(), ValueRef::Text("b")) == Some(Ordering::Less));
    let mut list = List::new(alloc);
    list.push(Value::Null)?;
    list.push(Value::Truth(false))?;
    list.push(Value::Truth(true))?;
    list.push(Value::Number(-1))?;
    list.push(sized("0", "050", true))?;
    list.push(Value::Number(7))?;
    list.push(sized("12", "5", false))?;
    list.push(Value::Date(Date { day: -719162 }))?;
    list.push(Value::Date(Date { day: 0 }))?;
    list.push(text)?;
    let rows = list.as_slice();
    for i in 0..rows.len() {
        for k in 0..rows.len() {
            let order = row_order(&rows[i..i + 1], &rows[k..k + 1]);
            assert!(rt; order == i.cmp(&k), "{i} and {k}");
        }
    }
    assert_eq!(rt; rows.len(), 10);
    assert!(rt; row_order(&rows[..2], &rows[..3]) == Ordering::Less);
    let copies = one(alloc, copy)?;
    assert!(rt; row_order(&rows[9..], copies.as_slice()) == Ordering::Equal);
    Ok(())
}

// At most 18 digits behind the zeros at the front; zeros at the end go, and a whole size is a number.
#[test]
fn sizes_and_their_texts(rt: HostRuntime) -> Result<(), Fail> {
    let alloc = rt.alloc();
    for (whole, fraction, negative, want) in [
        ("12", "50", false, "12.5"),
        ("0", "05", true, "-0.05"),
        ("7", "000", false, "7"),
        ("0", "0", true, "0"),
        ("00000000000000000000003", "25", true, "-3.25"),
        ("0", "000000000000000001", false, "0.000000000000000001"),
        ("00", "0000000000000000001", false, "none"),
        ("99999999999999999", "9", true, "-99999999999999999.9"),
        ("999999999999999999", "0", false, "none"),
        ("1", "00000000000000000", false, "1"),
    ] {
        let text = match sized(whole, fraction, negative) {
            Value::Number(number) => text_of_number(alloc, number)?,
            Value::Decimal(decimal) => text_of_decimal(alloc, decimal)?,
            _ => bytes(alloc, "none")?,
        };
        assert_eq!(rt; text.as_slice(), want.as_bytes(), "{whole} {fraction}");
    }
    let least = text_of_number(alloc, -9_223_372_036_854_775_808)?;
    assert_eq!(rt; least.as_slice(), b"-9223372036854775808".as_slice());
    Ok(())
}

#[test]
fn sizes_compare(rt: HostRuntime) {
    for (a, b, order) in [
        (
            sized("12", "5", false),
            sized("7", "0", false),
            Ordering::Greater,
        ),
        (
            sized("12", "5", false),
            sized("12", "50", false),
            Ordering::Equal,
        ),
        (
            sized("0", "05", true),
            sized("0", "0", false),
            Ordering::Less,
        ),
        (
            sized("0", "05", true),
            sized("0", "5", true),
            Ordering::Greater,
        ),
        (
            Value::Number(9_223_372_036_854_775_807),
            sized("99999999999999999", "9", false),
            Ordering::Greater,
        ),
    ] {
        let number = matches!(a, Value::Number(_) | Value::Decimal(_));
        assert!(rt; number);
        assert!(rt; row_order(&[a], &[b]) == order);
    }
    let day = ValueRef::Date(Date { day: -1 });
    assert!(rt; compare(day, ValueRef::Date(Date { day: 0 })) == Some(Ordering::Less));
    assert!(rt; compare(day, ValueRef::Null) == None);
}

#[test]
fn copies_equal_their_sources(rt: HostRuntime) -> Result<(), Fail> {
    let alloc = rt.alloc();
    let name = Name::from_bytes(alloc, b"PERSON")?;
    let other = name.copy(alloc)?;
    assert_eq!(rt; other.as_bytes(), b"PERSON".as_slice());
    let text = Text::from_text(alloc, "né")?;
    assert_eq!(rt; text.copy(alloc)?.as_text(), "né");
    let mut list = one(alloc, 4u8)?;
    list.push(5)?;
    assert_eq!(rt; list.as_slice(), [4, 5].as_slice());
    assert_eq!(rt; Code::UnknownGraph.number(), 601);
    assert_eq!(rt; Code::TooManyRows.number(), 908);
    Ok(())
}

// A shelf with the file `a`, which holds `hello`, for words that ask for `a` and `b`.
fn loaded(
    alloc: Global,
    name: usize,
    failing: u64,
    limit: u64,
) -> Result<Result<List<u8>, LoadStop>, NoMemory> {
    let mut words = List::new(alloc);
    for word in ["check", "a", "b"] {
        words.push(Text::from_text(alloc, word)?)?;
    }
    let names = one(alloc, Text::from_text(alloc, "a")?)?;
    let contents = one(alloc, bytes(alloc, "hello")?)?;
    let words = words.as_slice();
    let mut shelf = MemoryShelf::new(words, names, contents, one(alloc, failing)?, 2);
    Ok(match words {
        [first, a, b] if first.as_text() != "sample" && limit < 100 => {
            if name == 1 {
                load(alloc, &mut shelf, a.as_text(), limit)
            } else {
                load(alloc, &mut shelf, b.as_text(), limit)
            }
        }
        _ => Err(LoadStop::Failed),
    })
}

#[test]
fn devices_in_memory(rt: HostRuntime) -> Result<(), Fail> {
    let alloc = rt.alloc();
    // `hello` in pieces of two takes the calls 0 (open) and 1 to 4 (`he`, `ll`, `o` and the end).
    for (name, failing, limit, want) in [
        (1, 99, 5, Ok(())),
        (1, 5, 5, Ok(())),
        (1, 0, 5, Err(LoadStop::Failed)),
        (1, 3, 5, Err(LoadStop::Failed)),
        (1, 4, 5, Err(LoadStop::Failed)),
        (2, 99, 5, Err(LoadStop::Failed)),
        (1, 99, 4, Err(LoadStop::TooLong)),
        // The third piece passes the limit, so a read that fails before it is a failure.
        (1, 2, 3, Err(LoadStop::Failed)),
        (1, 3, 3, Err(LoadStop::TooLong)),
    ] {
        match loaded(alloc, name, failing, limit)? {
            Ok(text) => {
                assert!(rt; want == Ok(()), "{failing} {limit}");
                assert_eq!(rt; text.as_slice(), b"hello".as_slice());
            }
            Err(stop) => assert!(rt; want == Err(stop), "{failing} {limit}"),
        }
    }
    // A room of 7 bytes takes two pieces of three and then one byte; a failing call takes nothing.
    for (failing, room, want, fits) in [
        (99, 20, "hello, sink", true),
        (99, 7, "hello, ", false),
        (1, 20, "hel", false),
    ] {
        let calls = one(alloc, failing)?;
        let mut sink = MemorySink::new(alloc, room, calls, 3)?;
        assert!(rt; put_all(&mut sink, b"hello, sink").is_ok() == fits);
        assert_eq!(rt; sink.received(), want.as_bytes());
    }
    Ok(())
}
