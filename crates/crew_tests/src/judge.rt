//! Whether two servers have the same files.
use sk_ids::Name;
use sk_server::Server;
use tests_support::finding::Finding;

/// Whether a server's files have these names.
fn has_names(server: &Server, names: &[Name]) -> Result<bool, Finding> {
    let own = server.names()?;
    Ok(own.as_slice() == names)
}

/// Compares the files of two servers, of which one has these names.
fn judge_named(one: &Server, other: &Server, names: &[Name]) -> Result<(), Finding> {
    if !has_names(other, names)? {
        return Err(Finding::Files);
    }
    for name in names {
        if one.file(name) != other.file(name) {
            return Err(Finding::Files);
        }
    }
    Ok(())
}

/// Compares the files of two servers.
pub fn judge_files(one: &Server, other: &Server) -> Result<(), Finding> {
    let names = one.names()?;
    judge_named(one, other, &names)
}
