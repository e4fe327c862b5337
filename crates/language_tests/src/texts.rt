// Functions printed and read again, and the fault of a text. The built program prints none, and reads no functions alone.
use function_language::read_functions;
use function_printing::print_functions;
use program_tokens::SyntaxFault;
use std::alloc::Global;
use std::test::Fail;

const COUNT: &[u8] =
    b"reduce count ( k : int ; s : (int),\n t: (int) )->(int,int){\nlet n=0; # none\nfor (x) in t { set n = add(n, 1); } emit(add(k, 10), n); }";

const PRINTED: &[u8] =
    b"reduce count(k:int;s:(int),t:(int))->(int,int){let n=0;for(x)in t{set n=add(n,1);}emit(add(k,10),n);}\n";

const CUT_OFF: &[u8] = b"reduce count ( k : int ; s : (int),\n t: (int) )->(";

/// Whether this is the print of the functions of a text.
fn is_printed(alloc: Global, text: &[u8], printed: &[u8]) -> Result<bool, Fail> {
    let tree = read_functions(alloc, text)?;
    Ok(print_functions(alloc, &tree)?.as_slice() == printed)
}

/// The line of the fault of a text, or 0.
fn fault_line(alloc: Global, text: &[u8]) -> u64 {
    match read_functions(alloc, text) {
        Err(SyntaxFault::At { line }) => line,
        _ => 0,
    }
}

/// A function of 100,000 statements, as it is printed.
fn long_function(alloc: Global) -> Result<Vec<u8>, Fail> {
    let mut text = Vec::from_slice(alloc, b"partition f(k:int){")?;
    for _statement in 0..100_000 {
        text.extend_from_slice(b"give(1);")?;
    }
    text.extend_from_slice(b"}\n")?;
    Ok(text)
}

#[test]
fn functions_are_printed_and_read_again(rt: HostRuntime) -> Result<(), Fail> {
    let alloc = rt.alloc();
    assert!(rt; is_printed(alloc, COUNT, PRINTED)?);
    assert!(rt; is_printed(alloc, PRINTED, PRINTED)?);
    assert!(rt; fault_line(alloc, CUT_OFF) == 2);
    let long = long_function(alloc)?;
    assert!(rt; is_printed(alloc, long.as_slice(), long.as_slice())?);
    Ok(())
}
