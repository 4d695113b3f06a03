ghost use Rattle.std.specs.Prelude.{◌≡◌, option_copied, IfOk, IfErr};
ghost use Rattle.serde_json.specs.Read.{read};
ghost use Rattle.serde_json.specs.View.{view, items_view};
ghost use Rattle.swift_auth.specs.Faults.{Fails, Reads};
ghost use Rattle.swift_auth.specs.UsersTexts.{text_at, user_of, users_of, users_in};

use crate::{User, UsersFault};
use rgw_types::Items;
use serde_json::Value;
use std::alloc::Global;

/// The text that stands in an object under this name.
fn text_at<'a>(object: &'a Value, name: &str) -> Option<&'a str>
    ensures { option_copied result ≡ text_at name.now (view object.now) }
{
    object.get(name).and_then(Value::as_str)
}

/// The user that an object is.
fn read_user(alloc: Global, object: &Value) -> Result<User, UsersFault>
    ensures { Reads result (user_of (view object.now)) }
{
    let Some(full_name) = text_at(object, "user") else {
        return Err(UsersFault::BadUsers);
    };
    let Some(key) = text_at(object, "key") else {
        return Err(UsersFault::BadUsers);
    };
    let Some(token) = text_at(object, "token") else {
        return Err(UsersFault::BadUsers);
    };
    User::new(alloc, full_name, key, token)
}

/// The users that the items of an array are.
fn read_items(alloc: Global, objects: &[Value]) -> Result<Items<User>, UsersFault>
    ensures { Reads result (users_of (items_view objects.now)) }
{
    let mut users = Items::new(alloc);
    for object in objects {
        let user = read_user(alloc, object)?;
        users.push(user)?;
    }
    Ok(users)
}

/// The value that a text is in JSON.
fn read_value(alloc: Global, text: &str) -> Result<Value, UsersFault>
    ensures ok { IfOk result (λ value. read text.now ≡ Some (view value)) }
    ensures err { IfErr result (λ fault. Fails fault (read text.now)) }
{
    match Value::from_str(alloc, text) {
        Ok(value) => Ok(value),
        Err(error) if error.is_memory() => Err(UsersFault::OutOfMemory),
        Err(_) => Err(UsersFault::BadUsers),
    }
}

/// The users that a text lists.
pub fn read_users(alloc: Global, text: &str) -> Result<Items<User>, UsersFault>
    ensures { Reads result (users_in text.now) }
{
    let value = read_value(alloc, text)?;
    match value.as_array() {
        Some(objects) => read_items(alloc, objects),
        None => Err(UsersFault::BadUsers),
    }
}
