ghost use Rattle.std.specs.Prelude.{◌≡◌};
ghost use Rattle.gate_rules.specs.Attribute.{attribute_of, is_for, is_operation, is_setting_of, attribute_named, named_setting};

use crate::{Service, Setting};

/// What a line is about.
#[derive(Clone, Copy)]
pub enum Attribute {
    Permit,
    Deny,
    Port,
    Sets(Setting),
    Operation,
    /// Anything else, which says nothing.
    Other,
}

pub(crate) fn is_operation(text: &[u8]) -> bool
    ensures { result ≡ is_operation text.now }
{
    text == b"permit-operation".as_slice() || text == b"deny-operation".as_slice()
}

fn named_setting(text: &[u8]) -> Attribute
    ensures { result ≡ named_setting text.now }
{
    if text == b"timeout".as_slice() {
        return Attribute::Sets(Setting::Timeout);
    }
    if text == b"maxbytes".as_slice() {
        return Attribute::Sets(Setting::MaxBytes);
    }
    if text == b"maxrecip".as_slice() {
        return Attribute::Sets(Setting::MaxRecip);
    }
    if text == b"badsleep".as_slice() {
        return Attribute::Sets(Setting::BadSleep);
    }
    if text == b"nobogus".as_slice() {
        return Attribute::Sets(Setting::NoBogus);
    }
    Attribute::Other
}

fn attribute_named(text: &[u8]) -> Attribute
    ensures { result ≡ attribute_named text.now }
{
    if text == b"permit-hosts".as_slice() || text == b"hosts".as_slice() {
        return Attribute::Permit;
    }
    if text == b"deny-hosts".as_slice() {
        return Attribute::Deny;
    }
    if text == b"port".as_slice() {
        return Attribute::Port;
    }
    if is_operation(text) {
        return Attribute::Operation;
    }
    named_setting(text)
}

fn is_setting_of(service: &Service, which: Setting) -> bool
    ensures { result ≡ is_setting_of service.now which }
{
    match which {
        Setting::Timeout => true,
        Setting::MaxBytes | Setting::MaxRecip => service.is_smap(),
        Setting::BadSleep | Setting::NoBogus => service.is_authsrv(),
    }
}

fn is_for(service: &Service, attribute: Attribute) -> bool
    ensures { result ≡ is_for service.now attribute }
{
    match attribute {
        Attribute::Permit | Attribute::Deny => !service.is_plug(),
        Attribute::Port => service.is_plug(),
        Attribute::Sets(which) => is_setting_of(service, which),
        Attribute::Operation => service.is_authsrv(),
        Attribute::Other => false,
    }
}

// What the text is as an attribute for the service.
pub(crate) fn attribute_of(service: &Service, text: &[u8]) -> Attribute
    ensures { result ≡ attribute_of service.now text.now }
{
    let attribute = attribute_named(text);
    if is_for(service, attribute) {
        attribute
    } else {
        Attribute::Other
    }
}
