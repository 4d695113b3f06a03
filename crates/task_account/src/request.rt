use rgw_types::Text;

/// What a listing of an account asks for (OpenStack Object Storage API v1, show account details and list
/// containers).
#[derive(Debug, Drop)]
pub struct AccountListing {
    /// The greatest number of rows; above 10000 it counts as 10000.
    pub limit: u32,
    /// Keys above this text are listed.
    pub marker: Text,
    /// Where it is not empty, keys below this text are listed.
    pub end_marker: Text,
    /// Names that begin with this text are listed.
    pub prefix: Text,
    /// Where it is not empty, a name is listed up to and with its first delimiter behind the prefix.
    pub delimiter: Text,
}

/// What is asked of an account.
#[derive(Debug, Drop)]
pub enum AccountCommand {
    /// How many containers it has, how many objects they have, and the sum of their sizes.
    Head,
    /// The rows of its containers.
    List(AccountListing),
}

/// A request for an account: in which zone, of which account, and what is asked. Whoever asks may do so.
#[derive(Debug, Drop)]
pub struct AccountRequest {
    pub zone: u8,
    pub account: Text,
    pub command: AccountCommand,
}
