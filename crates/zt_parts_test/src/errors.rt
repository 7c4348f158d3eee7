//! The texts of errors.
use std::alloc::Global;
use std::test::Fail;
use zt_protocol::RunError;

fn is_told(alloc: Global, error: RunError, want: &str) -> Result<bool, Fail> {
    let text = format!(in alloc; "{error}")?;
    Ok(text.as_str() == want)
}

#[test]
fn texts_of_errors(rt: HostRuntime) -> Result<(), Fail> {
    assert!(rt; is_told(rt.alloc(), RunError::BadLine(3), "bad line 3")?);
    assert!(rt; is_told(rt.alloc(), RunError::TooLong, "too long")?);
    assert!(rt; is_told(rt.alloc(), RunError::ReadFault, "read fault")?);
    assert!(rt; is_told(rt.alloc(), RunError::WriteFault, "write fault")?);
    assert!(rt; is_told(rt.alloc(), RunError::Alloc, "out of memory")?);
    Ok(())
}
